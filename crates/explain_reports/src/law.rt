ghost use Rattle.std.specs.Prelude.{◌≡◌, List, ℕ};
ghost use Rattle.bus_ticks.specs.declared.profile.Profile.{Profile};
ghost use Rattle.cert_check.specs.declared.verdict.Verdict.{Verdict};
ghost use Rattle.cert_check.specs.declared.verdict.Verdict.TheVariants.{Yes};
ghost use Rattle.explain_reports.specs.Check.{IsCheckable, IsJudged};
ghost use Rattle.handlers.specs.Report.{IsReport};
ghost use Rattle.sources.specs.File.{File};

/// States that the checker accepts each report. By its source, its statement and its cycle profile,
/// [`check_report`](crate::check_report) refuses the text of a report for lack of memory or a failing output
/// alone, since it can be checked; and where it is judged, the verdict is Yes. It does nothing.
pub fn certificates_are_accepted()
    ensures checkable { (source : File) (statement text : List ℕ) (profile : Profile)
        → IsReport source statement profile text → IsCheckable source statement text profile }
    ensures yes { (source : File) (statement text : List ℕ) (profile : Profile) (verdict : Verdict)
        → IsReport source statement profile text → IsJudged source statement text profile verdict
        → verdict ≡ Yes }
{}
