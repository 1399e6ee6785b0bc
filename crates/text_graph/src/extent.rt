ghost use Rattle.std.specs.Prelude.{◌≡◌};
ghost use Rattle.text_graph.specs.Scene.{is_drawn};

/// How much of a flow graph, or of a listing with it, is shown.
#[derive(Clone, Copy)]
pub enum Extent {
    /// All of it.
    Whole,
    /// What a greatest walk passes.
    Path,
}

/// Whether what a greatest walk takes so often is shown.
pub fn is_drawn(extent: Extent, count: u64) -> bool
    ensures { result ≡ is_drawn extent count }
{
    match extent {
        Extent::Whole => true,
        Extent::Path => 0 < count,
    }
}
