//! The laws of parts that each saw contents of their own, and of the texts of marked reports, each
//! as the contract of a function that does nothing.
ghost use Rattle.part_laws.specs.Apart.{YesOfPartsApart};
ghost use Rattle.part_laws.specs.ApartTexts.{YesOfMarkedTextsApart, YesOfTextsApart};
ghost use Rattle.part_laws.specs.MarkedTexts.{JoinPrintsTheCheck, JoinedRunsAreTheChecks, TrueMarkedPartsReport, YesOfMarkedTexts};

use parts::laws::{parts_make_the_report, yes_of_parts};

/// If parts that have all places of a torrent are each true of contents of their own, as on
/// machines that each have a folder, and their report says yes, then their pieces together are a
/// good folder.
pub fn yes_of_parts_apart()
    ensures { YesOfPartsApart }
{
    yes_of_parts();
}

/// The same of the texts of such parts, that are joined.
pub fn yes_of_texts_apart()
    ensures { YesOfTextsApart }
{
    yes_of_parts_apart();
}

/// What a part prints of verdicts and of runs of bad pieces that are true of the same contents is a
/// marked report, as they are joined.
pub fn true_marked_parts_report()
    ensures { TrueMarkedPartsReport }
{}

/// If each of the texts that are joined is the marked report of a part, and true of the same
/// contents, then what is printed of their join is what a check of these contents prints that tells
/// of bad pieces, or a collision is named. The runs are the check's in any case.
pub fn join_prints_the_check()
    ensures runs { JoinedRunsAreTheChecks }
    ensures text { JoinPrintsTheCheck }
{
    parts_make_the_report();
}

/// If each of the texts that are joined is the marked report of a part, and true of the same
/// contents, and their report says yes, the folder is good.
pub fn yes_of_marked_texts()
    ensures { YesOfMarkedTexts }
{
    yes_of_parts();
}

/// The same where each part saw contents of its own, as on machines that each have a folder: their
/// pieces together are a good folder.
pub fn yes_of_marked_texts_apart()
    ensures { YesOfMarkedTextsApart }
{
    yes_of_parts_apart();
}
