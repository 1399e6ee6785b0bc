ghost use Rattle.std.specs.Prelude.{◌≡◌, ℕ, List, Ok, Err};
ghost use Rattle.image.specs.Image.{Words};
ghost use Rattle.assembler.specs.Assembles.{IsAssembly};
ghost use Rattle.assembler.specs.Refusals.{IsRefusal};
ghost use Rattle.image.specs.Labels.{Names};
ghost use Rattle.assembler.specs.Sweeps.{assembled};
ghost use Rattle.assembler.specs.declared.fault.LineFault.{LineFault};

use crate::sweep::FIRST_ADDRESS;
use asm_text::lines_are_spelled;

/// States where a source begins that has no ORG in front of its first line: at 8000. It does nothing.
pub fn first_address()
    ensures { FIRST_ADDRESS ≡ 0x8000 }
{}

/// States which image and names [`assemble`](crate::assembly::assemble) returns for a source: those of its
/// lines, each at its place; and that it returns them for each source that has such. It does nothing.
pub fn sources_are_assembled()
    ensures is_one { (source : List ℕ) → (image : Words) → (names : Names)
        → assembled source ≡ Ok (image, names) → IsAssembly source image names }
    ensures given { (source : List ℕ) → (image : Words) → (names : Names) → IsAssembly source image names
        → assembled source ≡ Ok (image, names) }
{
    lines_are_spelled();
}

/// States for which fault, and of which line, [`assemble`](crate::assembly::assemble) refuses a source: the
/// lowest fault of the first line that has one without any label's address; where no line has one, that of
/// the first line that has one with the labels' addresses. It does nothing.
pub fn sources_are_refused()
    ensures is_one { (source : List ℕ) → (fault : LineFault) → (line : ℕ)
        → assembled source ≡ Err (fault, line) → IsRefusal source fault line }
    ensures given { (source : List ℕ) → (fault : LineFault) → (line : ℕ) → IsRefusal source fault line
        → assembled source ≡ Err (fault, line) }
{
    lines_are_spelled();
}
