ghost use Rattle.std.specs.Prelude.{◌≡◌, ◌∷◌, ◌++◌, ℕ, List, [], true};
ghost use Rattle.std.specs.List.{list_all};
ghost use Rattle.text_explained.specs.declared.table_rows.TableRow.{TableRow};
ghost use Rattle.text_page.specs.Folds.{Parts, lines_from, rows_inside, rows_ticks};
ghost use Rattle.text_page.specs.Html.{IsPiece, escape, escaped, is_no_bracket};
ghost use Rattle.text_page.specs.declared.folds.Fold.{Fold};
ghost use Rattle.text_page.specs.declared.page_lines.PageLine.{PageLine};
ghost use Rattle.text_page.specs.declared.page_lines.PageLine.TheVariants.{Begun};

/// States that no byte of a text that comes from outside is a mark of HTML: escaped, each is one byte that is
/// no mark, or one of the entities, and no escaped text has a bracket or a quote. It does nothing.
pub fn escaped_texts_have_no_marks()
    ensures pieces { (byte : ℕ) → IsPiece (escape byte) }
    ensures brackets { (text : List ℕ) → list_all is_no_bracket (escaped text) ≡ true }
{}

/// States that what is said of a stretch's ticks is true of the page: they are those of the rows that are
/// shown between its beginning and its end, which are the rows that it hides. It does nothing.
pub fn fold_ticks_are_of_hidden_rows()
    ensures { (parts : Parts) (rows : List TableRow) (before behind : List PageLine) (f : Fold) (ticks : ℕ)
        → lines_from parts [] rows ≡ before ++ Begun f ticks ∷ behind
        → ticks ≡ rows_ticks (rows_inside 0 behind) }
{}
