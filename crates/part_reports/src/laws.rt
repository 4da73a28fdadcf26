//! What the reports of parts make together. A function that calls one of these knows its law.
ghost use Rattle.part_reports.specs.Laws.{AllReportsAreJoined};
ghost use Rattle.part_reports.specs.Texts.{TextsMakeTheReport, TruePartsReport, YesOfTexts};

use parts::laws::{parts_make_the_report as parts_make, yes_of_parts};

/// The whole reports of all parts of a check, each once and in any order and all of one kind, are
/// joined, or memory was refused.
pub fn all_reports_are_joined()
    ensures { AllReportsAreJoined }
{}

/// What a part prints of verdicts that are true is a report.
pub fn true_parts_report()
    ensures { TruePartsReport }
{}

/// If each of the texts that are joined is the report of a part, and true of the same contents,
/// they make the report that a check gives of these contents, or a collision is named.
pub fn texts_make_the_report()
    ensures { TextsMakeTheReport }
{
    parts_make();
}

/// If such texts make a report that says yes, the folder is good.
pub fn yes_of_texts()
    ensures { YesOfTexts }
{
    yes_of_parts();
}
