/// A sample handler.
#[derive(Clone, Copy)]
pub(crate) struct Sample {
    /// Its folder in `data/handlers/`.
    pub(crate) folder: &'static str,
    /// For a handler that FIQ interrupts, how often it does so in the run; `fiq.toml` is FIQ's statement.
    pub(crate) visits: Option<u32>,
    /// The ticks of the steps with which the machine file's run comes to the entry.
    pub(crate) before: u64,
}

fn alone(folder: &'static str) -> Sample {
    Sample {
        folder,
        visits: None,
        before: 0,
    }
}

/// All samples.
pub(crate) fn samples() -> [Sample; 11] {
    [
        alone("floppy"),
        alone("econet"),
        alone("podule_block"),
        alone("timer"),
        alone("vsync"),
        alone("keyboard"),
        alone("serial"),
        alone("dispatch"),
        alone("sound"),
        alone("scsi"),
        Sample {
            folder: "podule_and_floppy",
            visits: Some(2),
            before: 16,
        },
    ]
}
