ghost use Rattle.std.specs.Prelude.{◌≡◌, IfOk};
ghost use Rattle.machine_file.specs.Inputs.{AreInputs, bursts_of_step, lines_of_step, port_of_step};

use crate::events::Schedule;
use crate::machine_files::MachineFile;
use arm2_exec::Input;
use bitflags::Flags;
use ioc::Lines;
use std::alloc::{AllocError, Global};

impl Schedule {
    fn bursts_of_step(&self, step: u32) -> u16
        ensures { result ≡ bursts_of_step self.now step }
    {
        match self.events.get(&step) {
            Some(event) => event.bursts,
            None => 0,
        }
    }

    fn lines_of_step(&self, step: u32) -> Option<Lines>
        ensures { result ≡ lines_of_step self.now step }
    {
        match self.events.get(&step) {
            Some(event) => event.lines,
            None => None,
        }
    }

    fn port_of_step(&self, step: u32) -> Option<u32>
        ensures { result ≡ port_of_step self.now step }
    {
        match self.events.get(&step) {
            Some(event) => event.port,
            None => None,
        }
    }

    // One input for each step.
    fn inputs(&self, alloc: Global) -> Result<Vec<Input>, AllocError>
        ensures { IfOk result (λ inputs. AreInputs self.now inputs.items) }
    {
        let mut inputs = Vec::new(alloc);
        let mut lines = Lines::empty();
        let mut port = self.port;
        for step in 0..self.steps {
            lines = self.lines_of_step(step).unwrap_or(lines);
            port = self.port_of_step(step).unwrap_or(port);
            inputs.push(Input {
                bursts: self.bursts_of_step(step),
                lines,
                port,
            })?;
        }
        Ok(inputs)
    }
}

impl MachineFile {
    /// The inputs of the file's steps, in their order, in time linear in the steps.
    ///
    /// # Errors
    ///
    /// An allocation failed.
    pub fn inputs(&self, alloc: Global) -> Result<Vec<Input>, AllocError>
        ensures { IfOk result (λ inputs. AreInputs self.now.schedule inputs.items) }
    {
        self.schedule.inputs(alloc)
    }
}
