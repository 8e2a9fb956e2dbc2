//! Laws of the cache and its shadow.
ghost use Rattle.asit_shadow.specs.PlaceLaws.{ArmingKeepsPlaces, WritingKeepsNodes, WritingBackKeepsPlaces, FetchingKeepsPlaces, PowerOffKeepsNodes, RecoveryKeepsNodes, HeldNodesAreRead, StoredLinesAreRead, StoredSlotsAreRead, TamperingKeepsOthers, PlainNodesAreTrue, ArmingIsAWrite, TopCountsWrites};
ghost use Rattle.asit_shadow.specs.Work.{SpillsAreFew, AbsentAreFew, CachedPathsAreFree};
ghost use Rattle.asit_shadow.specs.Laws.{SlotsAreInside, PathSlotsAreApart, PathsAreNamed, WritesMakeGroups, ArmingKeepsAnchored, WritingKeepsTrusted, ArmingKeepsDurable, WritingKeepsSound, GroupLinesKeepDurable, InterruptionsKeepDurable, FinishingKeepsDurable, ForgedNodesHold, FetchingKeepsTrusted, SoundNodesAreRead, WritingBackKeepsSound, FetchingKeepsSound, ReadsArePlain, ForgedLinesHold, SoundLinesAreRead, WritesArePlain, WritesAreFresh, ClashesHold, RecoveryIsTrusted, DurableSlotsAreTrue, RecoveryIsSound, FormattingIsSound, PathsAreCached};

/// A law: each node has a slot, and no two nodes of one path have the same.
pub fn slots_are_apart()
    ensures inside { SlotsAreInside }
    ensures apart { PathSlotsAreApart }
{}

/// A law: naming a path's nodes names each of them in the slots and leaves the other slots as they were; storing them
/// leaves a cache that holds each of them dirty; and a write's group can be armed, as its places are distinct and on
/// the device.
pub fn paths_are_named()
    ensures named { PathsAreNamed }
    ensures cached { PathsAreCached }
    ensures groups { WritesMakeGroups }
{}

/// A law: arming a write keeps the chip anchored; once its group is written and emptied, a trusted engine is trusted
/// again. Over a sound engine with the path cached, the device is durable from the latch on, and the engine is sound
/// once the group is written and emptied.
pub fn writes_are_atomic()
    ensures anchored { ArmingKeepsAnchored }
    ensures trusted { WritingKeepsTrusted }
    ensures durable { ArmingKeepsDurable }
    ensures sound { WritingKeepsSound }
{}

/// A law: a device stays durable while its armed group is written: after a write of any of the group's lines, after a
/// cut that leaves lines of which redoing the group makes the same, and once the group is written and emptied.
pub fn groups_are_durable()
    ensures lines { GroupLinesKeepDurable }
    ensures interrupted { InterruptionsKeepDurable }
    ensures finished { FinishingKeepsDurable }
{}

/// A law: a node that is accepted under its version and isn't the true one gives an exhibit that holds; an engine stays
/// trusted as a fetched node takes its slot. Over a sound engine, a node that isn't cached is read as the true one,
/// writing a true node back keeps the engine sound, and so does fetching a node into a slot whose own node is clean or
/// true on the device.
pub fn fetches_are_true()
    ensures forged { ForgedNodesHold }
    ensures trusted { FetchingKeepsTrusted }
    ensures read { SoundNodesAreRead }
    ensures written { WritingBackKeepsSound }
    ensures sound { FetchingKeepsSound }
{}

/// A law: of a path, at most as many nodes are evicted as come in, at most one comes in for each level, and none if the
/// path is cached.
pub fn fetches_are_few()
    ensures spilled { SpillsAreFew }
    ensures absent { AbsentAreFew }
    ensures cached { CachedPathsAreFree }
{}

/// A law: on an anchored chip, the cipher of a line's last seal decrypts to memory's line, and another cipher with the
/// right tag gives an exhibit that holds. Over a sound engine the tag fits, and the cipher is that of the last seal. An
/// armed write changes its own line of memory and no other, and no line is sealed twice under one counter.
pub fn reads_are_plain()
    ensures plain { ReadsArePlain }
    ensures forged { ForgedLinesHold }
    ensures sound { SoundLinesAreRead }
    ensures writes { WritesArePlain }
    ensures fresh { WritesAreFresh }
{}

/// A law: on an anchored chip, slot lines that have the register's root and aren't the true ones give a clash that
/// holds, and the true ones make a trusted engine if no group is armed. On a durable device without an armed group, the
/// slot lines read are the true ones and have the register's root, and the engine made from them is sound.
pub fn recovery_restores()
    ensures clash { ClashesHold }
    ensures trusted { RecoveryIsTrusted }
    ensures slots { DurableSlotsAreTrue }
    ensures sound { RecoveryIsSound }
{}

/// A law: a formatted device is sound.
pub fn formatting_is_sound()
    ensures { FormattingIsSound }
{}

/// A law: a stored seal, a stored slot line and a held node stay so through the steps of an engine: arming a write,
/// storing its nodes, writing a node back, fetching one, power off, and recovery. A line changed past the controller
/// changes no other line, also once an armed group is redone.
pub fn places_are_kept()
    ensures armed { ArmingKeepsPlaces }
    ensures written { WritingKeepsNodes }
    ensures written_back { WritingBackKeepsPlaces }
    ensures fetched { FetchingKeepsPlaces }
    ensures off { PowerOffKeepsNodes }
    ensures recovered { RecoveryKeepsNodes }
    ensures tampered { TamperingKeepsOthers }
{}

/// A law: a held node that isn't cached is read as the true node, a line whose seal is stored is read with the cipher
/// and the tag of its last seal, and stored slot lines are read as the true ones. So a refusal or an exhibit of a place
/// comes only if its line was tampered with.
pub fn kept_places_are_read()
    ensures nodes { HeldNodesAreRead }
    ensures lines { StoredLinesAreRead }
    ensures slots { StoredSlotsAreRead }
{}

/// A law: the true nodes of a session's plain machine are those of the watch, an armed write is a write of the plain
/// machine, and the version of the top is the number of all writes made.
pub fn plain_machine_goes_along()
    ensures nodes { PlainNodesAreTrue }
    ensures writes { ArmingIsAWrite }
    ensures top { TopCountsWrites }
{}
