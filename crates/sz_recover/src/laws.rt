//! What may be taken for granted of the bodies of what is held, of opened logs, and of how a log
//! grows beside what a session holds. Each function is a law: its clauses say it, and it does
//! nothing.
ghost use Rattle.sz_recover.specs.Terms.{ReadGroupsAreLogs, LogsAreSpelled, WellMadeLogsEnd};
ghost use Rattle.sz_recover.specs.Terms.{MadeLogsEnd, LogsGrow, MadeLogsGrow, LogsGrowOrStay};
ghost use Rattle.sz_recover.specs.Terms.{LinesAct, LinesKeepVersions, AwaitsAct, AwaitsAreOnce};
ghost use Rattle.sz_recover.specs.Terms.{UpgradesAct, FormatsAreByGroups, StartsAreNotLogged};
ghost use Rattle.sz_recover.specs.Terms.{NothingIsInOrder, HeldBodiesAreLawful, CommandsKeepOrder};
ghost use Rattle.sz_recover.specs.Terms.{LogsAreInOrder, WellMadeLogsKeepTheirVersions};
ghost use Rattle.sz_recover.specs.Terms.{HeldVersionsHaveEntries, HeldVersionsAreAwaited};
ghost use Rattle.sz_recover.specs.Terms.{WrongStoresAreUnsound, NoneMeansEach, EachMeansNone};
ghost use Rattle.sz_recover.specs.Terms.{OneThingIsTold, WellMadeLogsAreReadInOneWay};
ghost use Rattle.sz_recover.specs.Terms.{WellMadeLogsAreNotBad, LogsAreFirstBadAtOnePlace};

/// Whatever [`crate::version_body`] writes of a version of what is in order, awaited or not, is
/// lawful over what is held but for that version, and says it, awaited.
pub fn bodies_of_held_versions_are_lawful()
    ensures { HeldBodiesAreLawful }
{}

/// What a well-made log keeps is an entry for each version that its groups add, and no other.
pub fn well_made_logs_keep_their_versions()
    ensures { WellMadeLogsKeepTheirVersions }
{}

/// Of what is opened, each version that is held has an entry, with stores that fit it, and was
/// awaited.
pub fn held_versions_have_entries()
    ensures found { HeldVersionsHaveEntries }
    ensures awaited { HeldVersionsAreAwaited }
{}

/// What is read as groups of a log, their lengths as they are written, is a log of these, and in a
/// log they stand so. So a well-made log ends as a log where its groups do.
pub fn well_made_logs_end()
    ensures read { ReadGroupsAreLogs }
    ensures spelled { LogsAreSpelled }
    ensures end { WellMadeLogsEnd }
    ensures made { MadeLogsEnd }
{}

/// A group that acts on what a well-made log holds makes of it a well-made log, and a stop on the
/// way leaves one too.
pub fn logs_grow()
    ensures grow { LogsGrow }
    ensures made { MadeLogsGrow }
    ensures stay { LogsGrowOrStay }
{}

/// The line of a command that a session takes acts on what its log holds as on what it holds, and
/// changes no version.
pub fn lines_act_on_logs()
    ensures act { LinesAct }
    ensures keep { LinesKeepVersions }
{}

/// The body of a version that was not awaited acts on what a log holds as the await does. To await
/// a version again changes nothing.
pub fn awaits_act_on_logs()
    ensures act { AwaitsAct }
    ensures once { AwaitsAreOnce }
{}

/// The empty group of kind 5 raises a log of format 1 to format 2, and changes nothing that is held
/// or kept.
pub fn upgrades_act_on_logs()
    ensures { UpgradesAct }
{}

/// The format of a well-made log is 2 where it has a group of kind 5, and else 1.
pub fn formats_are_by_groups()
    ensures { FormatsAreByGroups }
{}

/// A log holds nothing of a version that is started.
pub fn starts_are_not_logged()
    ensures { StartsAreNotLogged }
{}

/// What is held is in order, whatever commands were taken from nothing on; and so is what a
/// well-made log holds.
pub fn holdings_are_in_order()
    ensures nothing { NothingIsInOrder }
    ensures commands { CommandsKeepOrder }
    ensures logs { LogsAreInOrder }
{}

/// Where [`crate::unsound`] gives a store, what is kept is not sound: it gives none exactly where
/// each store stands for exactly the relation.
pub fn wrong_stores_are_unsound()
    ensures { WrongStoresAreUnsound }
{}

/// What [`crate::unsound`] gives says one thing of what is kept. It gives no store exactly where
/// each store, whatever its entry and its node, stands for exactly the relation of the operator
/// that was executed there; and of two stores it cannot give both.
pub fn one_thing_is_told_of_stores()
    ensures none { NoneMeansEach }
    ensures each { EachMeansNone }
    ensures one { OneThingIsTold }
{}

/// A log is read in one way: a well-made log ends at one place, has one format, holds one thing and
/// keeps of each version stores that keep the same, and has no bad group; and the first bad group
/// of a log stands at one place.
pub fn logs_are_read_in_one_way()
    ensures made { WellMadeLogsAreReadInOneWay }
    ensures whole { WellMadeLogsAreNotBad }
    ensures bad { LogsAreFirstBadAtOnePlace }
{}
