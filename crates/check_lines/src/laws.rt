//! Laws of printed lines. Each is the contract of a function that does nothing.
ghost use Rattle.std.specs.Prelude.{◌≡◌};
ghost use Rattle.check_lines.specs.Words.{List, FileEntry, Reported};
ghost use Rattle.fx_script.specs.Text.{report_text};
ghost use Rattle.check_lines.specs.Laws.{BeginsWithOneResult, NamesHaveNoLineEnd, PlaysBeginWithNoClose, ReportsHaveEachRequest};
ghost use Rattle.check_lines.specs.Lines.{lines_of, lines_text};

/// States that the text of a report is that of its lines.
#[tactic(auto, using(crate::proofs::ReportTexts::printed_lines))]
pub fn a_report_prints_its_lines()
    ensures { (catalogue : List FileEntry) (report : Reported)
        → report_text catalogue report ≡ lines_text (lines_of catalogue report) }
{}

/// States that a text begins with at most one line of a word and a result: of two such lines,
/// neither begins with the other.
#[tactic(auto, using(crate::proofs::Decimals::one_result))]
pub fn a_text_begins_with_one_result()
    ensures { BeginsWithOneResult }
{}

/// States that the text of commands never begins with a line of a closed file or of a tag. So the
/// text after a report's lines is never read as one of them.
#[tactic(auto, using(crate::proofs::PlaysBegin::plays_begin))]
pub fn plays_begin_with_no_close()
    ensures { PlaysBeginWithNoClose }
{}

/// States that the report of a submission has a completion for each of its requests, so that its
/// text begins with as many lines of completions.
pub fn reports_have_each_request()
    ensures { ReportsHaveEachRequest }
{}

/// States that the name of a catalogue entry has no line end, so that `read_report` reads the names
/// of each report.
#[tactic(auto, using(crate::proofs::ReportTexts::name_without_end))]
pub fn names_have_no_line_end()
    ensures { NamesHaveNoLineEnd }
{}
