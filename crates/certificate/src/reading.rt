ghost use Rattle.std.specs.Prelude.{◌≡◌, ℕ, IfOk, IsErrOf};
ghost use Rattle.certificate.specs.Faults.{EndsEarly, GoesOn, HasBadLine, IsRead, Reads, RunsOn, StopsAt};
ghost use Rattle.certificate.specs.Faults.{StopsShort};
ghost use Rattle.certificate.specs.Lines.{CanSpell, Said, cert_text, said_by};

use crate::cert::Cert;
use crate::draft::Draft;
use crate::fault::CertFault;
use crate::line::WalkLine;
use crate::splitting::line_first;
use crate::steps_lately::StepsLately;
use std::alloc::Global;

fn read_lines(alloc: Global, text: &[u8]) -> Result<Cert, CertFault>
    ensures found { IfOk result (IsRead text.now) }
    ensures bad_line { (n : ℕ) → IsErrOf result (CertFault.BadLine n) → StopsAt text.now n }
    ensures truncated { IsErrOf result CertFault.Truncated → StopsShort text.now }
    ensures trailing { IsErrOf result CertFault.TrailingBytes → RunsOn text.now }
{
    let mut draft = Draft::new(alloc);
    let mut lately = StepsLately::new();
    let mut number: usize = 1;
    let mut rest = text;
    loop {
        if let Some((step, after)) = lately.first(rest) {
            if !draft.take_walk(alloc, WalkLine::Step(step))? {
                return Err(CertFault::BadLine(number));
            }
            number += 1;
            rest = after;
            continue;
        }
        let Some((words, after)) = line_first(rest) else {
            return Err(CertFault::Truncated);
        };
        let Some(line) = lately.line_of(words) else {
            return Err(CertFault::BadLine(number));
        };
        if !draft.take(alloc, line)? {
            return Err(CertFault::BadLine(number));
        }
        if draft.is_done() {
            if !after.is_empty() {
                return Err(CertFault::TrailingBytes);
            }
            return Ok(draft.finish());
        }
        number += 1;
        rest = after;
    }
}

/// The certificate that the text spells.
///
/// # Errors
///
/// The first whole line that does not fit is `BadLine` with its number, counted from 1: no certificate's text
/// begins with the lines up to it. Else a text that ends before `stop`'s line does is `Truncated`, and bytes
/// after it are `TrailingBytes`. `Memory`: an allocation failed.
pub fn read_cert(alloc: Global, text: &[u8]) -> Result<Cert, CertFault>
    // What is read is what the text spells.
    ensures found { IfOk result (λ cert. CanSpell (said_by cert) × (text.now ≡ cert_text (said_by cert))) }
    // What is spelled in this way is read, unless memory runs out.
    ensures only { (said : Said) → CanSpell said → text.now ≡ cert_text said → Reads said result }
    // Which fault it is.
    ensures bad_line { (n : ℕ) → IsErrOf result (CertFault.BadLine n) → HasBadLine text.now n }
    ensures truncated { IsErrOf result CertFault.Truncated → EndsEarly text.now }
    ensures trailing { IsErrOf result CertFault.TrailingBytes → GoesOn text.now }
{
    read_lines(alloc, text)
}
