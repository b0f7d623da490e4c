ghost use Rattle.peer_refinement.specs.TreeLaws.{FindsEntries, ReadsNodes, ScansMaps, EntersEntries, MakesEmpty, InstallsMaps, KeepsMaps, KeepsVersions, KeepsHashed, HashesBytes, KeepsStores};
ghost use Rattle.peer_refinement.specs.Tops.{EntersTops, InstallsTops, MakesTops, KeepsTops};
ghost use Rattle.peer_refinement.specs.Rooted.{SeesEntries, SeesNodes, SeesMaps, SeesEntered, KeepsSight, OpensSealed, OpensRecorded, OpensIn};
ghost use Rattle.peer_refinement.specs.Whole.{FindsAll, ReadsAll, ScansAll, EntersAll, InstallsWhole, MakesWhole, OpensWhole, KeepsWhole, KeepsRecord, ServesOthers};

/// What each call answers, and what it does, if the tree of the peer shows a map: `finds`, `reads`
/// and `scans` are of the calls that look into the tree, `enters` of the call that puts an entry,
/// and `keeps` of the calls that leave the root. In any state, a fresh tree shows the empty map
/// (`makes`) and an installed one the map of its entries, a call that neither makes nor opens a tree
/// leaves its version, strings that were hashed stay so, and a call changes no store but its own.
pub fn calls_keep_the_map()
    ensures finds { FindsEntries }
    ensures reads { ReadsNodes }
    ensures scans { ScansMaps }
    ensures enters { EntersEntries }
    ensures makes { MakesEmpty }
    ensures installs { InstallsMaps }
    ensures keeps { KeepsMaps }
    ensures versions { KeepsVersions }
    ensures hashed { KeepsHashed }
    ensures hashes { HashesBytes }
    ensures stores { KeepsStores }
{}

/// If each node of the map is stored and no failure waits, no call meets damage: a find and a read
/// reach what they look for, a scan returns all entries, an entering puts its entry and stores the
/// nodes of the new map, and the calls that leave the root leave the tree whole (`keeps`). Where no
/// failure waits, a fresh tree is whole and so is an installed one, the top record goes on naming
/// the root (`records`), and the other stores serve their calls. An opened tree is whole if the
/// nodes of the map under the top record are stored and were hashed.
pub fn whole_trees_have_no_damage()
    ensures finds { FindsAll }
    ensures reads { ReadsAll }
    ensures scans { ScansAll }
    ensures enters { EntersAll }
    ensures makes { MakesWhole }
    ensures installs { InstallsWhole }
    ensures opens { OpensWhole }
    ensures keeps { KeepsWhole }
    ensures records { KeepsRecord }
    ensures serves { ServesOthers }
{}

/// What each call does to the top records: an entering, a building and a fresh start write one that
/// names the new map; where that write is refused, there is one more record, or none. The other calls
/// write no top record.
pub fn top_records_name_maps()
    ensures enters { EntersTops }
    ensures installs { InstallsTops }
    ensures makes { MakesTops }
    ensures keeps { KeepsTops }
{}

/// The calls on a tree that shows a map, or has no root of its version: each answer is that of the map, or
/// damage. A tree that is opened under a seal has the root that the seal names, or none, and without a seal
/// that of the top record; it shows the map that this root names, if it is opened in the root's version.
pub fn sealed_trees_show_the_map()
    ensures finds { SeesEntries }
    ensures reads { SeesNodes }
    ensures scans { SeesMaps }
    ensures enters { SeesEntered }
    ensures keeps { KeepsSight }
    ensures opens { OpensSealed }
    ensures reopens { OpensRecorded }
    ensures versions { OpensIn }
{}
