//! What holds of the definitions alone.
ghost use Rattle.std.specs.Prelude.{◌≡◌, ℕ, List};
ghost use Rattle.std.specs.Str.{IsAscii};
ghost use Rattle.rst_report.specs.declared.head.Head.{Head};
ghost use Rattle.rst_verdict.specs.declared.verdict.Verdict.{Verdict};
ghost use Rattle.rst_report_json.specs.JsonReports.{name_text, report_data};
ghost use Rattle.rst_report_json.specs.Shapes.{IsReport};

/// A report is an object whose members stand in the strict order of their names' bytes, and so do those
/// of the objects in it. Each member is a text, a natural number, an object of texts, or an array of
/// such objects.
pub fn reports_have_their_shape()
    ensures { (head : Head) (verdict : Verdict) → IsReport (report_data head verdict) }
{}

/// A name in ASCII stands in a report as it is.
pub fn names_stand()
    ensures { (name : List ℕ) → IsAscii name → name_text name ≡ name }
{}
