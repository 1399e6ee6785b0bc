ghost use Rattle.std.specs.Prelude.{◌≡◌};
ghost use Rattle.sources.specs.declared.file.Dialect.TheVariants.{Plain};

/// What a text is written in.
#[derive(Clone, Copy, Debug, PartialEq, Eq)]
pub enum Dialect {
    /// Our own grammar, or the dialect of Acorn's ObjAsm where its first line says so.
    Plain,
    /// The dialect of Acorn's ObjAsm.
    Objasm,
}

/// A file that is read as a source: a text, or an image, which is one whatever the dialect.
#[derive(Clone, Copy)]
pub struct SourceFile<'a> {
    /// What a text is written in, as is said of the file.
    pub dialect: Dialect,
    pub bytes: &'a [u8],
}

impl<'a> SourceFile<'a> {
    /// The file with these bytes, of which nothing is said.
    pub fn plain(bytes: &'a [u8]) -> SourceFile<'a>
        ensures dialect { result.dialect ≡ Plain }
        ensures bytes { result.bytes.now ≡ bytes.now }
    {
        SourceFile {
            dialect: Dialect::Plain,
            bytes,
        }
    }
}
