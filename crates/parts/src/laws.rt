//! What the parts of a check make together. A function that calls one of these knows its law.
ghost use Rattle.parts.specs.Laws.{PartsMakeTheReport, PlacesAreTested, ReportIsOne, SharesHaveAllPlaces, WorseJoins, WorseJoinsV1, YesOfParts};

/// Parts that together have all places of a torrent, and are true of the same contents, make the
/// report that a check gives of them, or a collision is named.
pub fn parts_make_the_report()
    ensures { PartsMakeTheReport }
{}

/// If such parts make a report that says yes, the folder is good.
pub fn yes_of_parts()
    ensures { YesOfParts }
{}

/// Contents have one report, if no file was unreadable.
pub fn report_is_one()
    ensures { ReportIsOne }
{}

/// The worse of a join and of what one part more says is their join.
pub fn worse_joins()
    ensures files { WorseJoins }
    ensures version1 { WorseJoinsV1 }
{}

/// The shares of all parts have all places between them.
pub fn shares_have_all_places()
    ensures { SharesHaveAllPlaces }
{}

/// A file has the line of a part's report exactly if it has a place in the part.
pub fn places_are_tested()
    ensures { PlacesAreTested }
{}
