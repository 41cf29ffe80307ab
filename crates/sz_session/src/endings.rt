//! Laws of the endings of [`crate::serve`], for a reader: what follows of its clauses, that is of
//! the records of `specs/Modes`, for each call. Each function does nothing, and its contract is the
//! law.
//!
//! In each `job` is what the words of a call ask for, none where they are refused, and `s` the
//! status that the call ended with; `before` and `after` are its source, and `old` and `new` its
//! station, as it began and as it ended.

ghost use Rattle.std.specs.Prelude.{◌≡◌, ◌⊎◌, ◌^◌};
ghost use Rattle.sz_session.specs.Terms.{ℕ, true, false, [], None, Rose, Stood, Says, SaysPart};
ghost use Rattle.sz_session.specs.Terms.{nothing_held, Done, SaidOfRead, SaidToLimit, SaidInPart};
ghost use Rattle.sz_session.specs.Terms.{SaidInLines, IsPastLimit, IsWithinLimit, ready_line};
ghost use Rattle.sz_session.specs.Terms.{IsFree, IfBarred, HasMade, IsSpared, IsSilent, DiskStays};
ghost use Rattle.sz_session.specs.Terms.{StaysFinding, OnlySays, FoundInPart, StopsMaking};
ghost use Rattle.sz_session.specs.Terms.{log_status, is_of_disk, status_number, StatusOf, SaysLine};
ghost use Rattle.sz_session.specs.Terms.{SaysPartOfLine, IfNoLog, BeginsAsLog, StopsChecking};
ghost use Rattle.sz_session.specs.Terms.{IsUnlike, IsBadLog, IfBadLog, IsWellMadeLog, raised_line};
ghost use Rattle.sz_session.specs.Terms.{HasRaised, IsLeftAlone, StopsRaising, EndsOnLog, AsksFor};
ghost use Rattle.sz_session.specs.Terms.{IfLoad, OfEachCall, is_for, is_of_lines, is_opened};
ghost use Rattle.sz_session.specs.Terms.{is_on_log};

use crate::serving::Status;
use sz_log::LogFault;
use sz_outside::{Source, Station};
use sz_recover::laws::logs_are_read_in_one_way;
use sz_words::JobMode;

// ---- all modes

/// A call ends as Done only where no fault was counted, and by a fault's status only where its
/// count rose.
pub fn faults_are_counted<S: Source, T: Station>()
    ensures quiet { OfEachCall S.Source T.Station (λ job s before after old new.
        s ≡ Status.Done → Stood (S.faults before) (S.faults after)
        × Stood (T.say_faults old) (T.say_faults new)
        × Stood (T.disk_faults old) (T.disk_faults new)) }
    ensures read_fault { OfEachCall S.Source T.Station (λ job s before after old new.
        s ≡ Status.ReadFault → Rose (S.faults before) (S.faults after)) }
    ensures say_fault { OfEachCall S.Source T.Station (λ job s before after old new.
        s ≡ Status.SayFault → Rose (T.say_faults old) (T.say_faults new)) }
    ensures disk_fault { OfEachCall S.Source T.Station (λ job s before after old new.
        s ≡ Status.DiskFault → Rose (T.disk_faults old) (T.disk_faults new)) }
{}

/// Want of memory hides no fault: a call that ends by it ends before any fault was counted.
pub fn want_of_memory_hides_no_fault<S: Source, T: Station>()
    ensures { OfEachCall S.Source T.Station (λ job s before after old new.
        s ≡ Status.NoMemory → Stood (S.faults before) (S.faults after)
        × Stood (T.say_faults old) (T.say_faults new)
        × Stood (T.disk_faults old) (T.disk_faults new)) }
{}

/// Some statuses come in some modes alone: Usage in none, a fault in reading and the limit where
/// lines are read, those of the disk in a mode of a log, and that a log is there already in init.
/// Where the disk has a status and no session goes on with it, nothing was said.
pub fn statuses_have_their_modes<S: Source, T: Station>()
    ensures usage { OfEachCall S.Source T.Station (λ job s before after old new.
        s ≡ Status.Usage → job ≡ None) }
    ensures reads_lines { OfEachCall S.Source T.Station (λ job s before after old new.
        (s ≡ Status.ReadFault) ⊎ (s ≡ Status.InputLimit) → is_for is_of_lines job ≡ true) }
    ensures input_limit { OfEachCall S.Source T.Station (λ job s before after old new.
        s ≡ Status.InputLimit → IsPastLimit (2 ^ 62) (S.left before)) }
    ensures disk_in_log { OfEachCall S.Source T.Station (λ job s before after old new.
        is_of_disk s ≡ true → is_for is_on_log job ≡ true) }
    ensures already_in_init { OfEachCall S.Source T.Station (λ job s before after old new.
        s ≡ Status.AlreadyALog → AsksFor JobMode.Init job) }
    ensures silent { OfEachCall S.Source T.Station (λ job s before after old new.
        ¬ AsksFor JobMode.Run job → is_of_disk s ≡ true → IsSilent T.Station old new) }
{}

/// In a mode that uses no log the disk is as before, whatever the status.
pub fn the_disk_stays<S: Source, T: Station>()
    ensures disk { OfEachCall S.Source T.Station (λ job s before after old new.
        is_for is_on_log job ≡ false → DiskStays T.Station old new) }
{}

// ---- a session of no log

/// In play a session that is done has said all of its transcript, and by each other ending the
/// replies of the whole lines that were read, a first part of the transcript, or the first so many
/// of its lines. Without a fault, and within the limit, it is done, or there was no memory.
pub fn play_says_the_transcript<S: Source, T: Station>()
    ensures done { OfEachCall S.Source T.Station (λ job s before after old new.
        AsksFor JobMode.Play job → s ≡ Status.Done
        → Done nothing_held (2 ^ 62) (S.left before) (S.left after) (T.said old) (T.said new)) }
    ensures after_read_fault { OfEachCall S.Source T.Station (λ job s before after old new.
        AsksFor JobMode.Play job → s ≡ Status.ReadFault
        → SaidOfRead nothing_held (S.left before) (S.left after) (T.said old) (T.said new)) }
    ensures after_say_fault { OfEachCall S.Source T.Station (λ job s before after old new.
        AsksFor JobMode.Play job → s ≡ Status.SayFault
        → SaidInPart nothing_held (S.left before) (T.said old) (T.said new)) }
    ensures after_no_memory { OfEachCall S.Source T.Station (λ job s before after old new.
        AsksFor JobMode.Play job → s ≡ Status.NoMemory
        → SaidInLines nothing_held (S.left before) (T.said old) (T.said new)) }
    ensures after_input_limit { OfEachCall S.Source T.Station (λ job s before after old new.
        AsksFor JobMode.Play job → s ≡ Status.InputLimit
        → SaidToLimit nothing_held (2 ^ 62) (S.left before) (S.left after)
        (T.said old) (T.said new)) }
    ensures completes { OfEachCall S.Source T.Station (λ job s before after old new.
        AsksFor JobMode.Play job → IsWithinLimit (2 ^ 62) (S.left before)
        → ¬ Rose (S.faults before) (S.faults after)
        → ¬ Rose (T.say_faults old) (T.say_faults new)
        → (s ≡ Status.Done) ⊎ (s ≡ Status.NoMemory)) }
    ensures found_in_play { OfEachCall S.Source T.Station (λ job s before after old new.
        AsksFor JobMode.Play job
        → StaysFinding T.Station (FoundInPart nothing_held (S.left before) (T.said old))
        old new) }
{}

/// In load the line that sums up the generated session is said where it is done, a first part of it
/// where it could not be said, and nothing where there was no memory.
pub fn load_says_its_line<S: Source, T: Station>()
    ensures load { OfEachCall S.Source T.Station (λ job s before after old new.
        s ≡ Status.Done → IfLoad job
        (λ line. Says (T.said old) (T.said new) line)) }
    ensures load_after_say_fault { OfEachCall S.Source T.Station (λ job s before after old new.
        s ≡ Status.SayFault → IfLoad job
        (λ line. SaysPart (T.said old) (T.said new) line)) }
    ensures load_after_no_memory { OfEachCall S.Source T.Station (λ job s before after old new.
        AsksFor JobMode.Load job → s ≡ Status.NoMemory
        → Says (T.said old) (T.said new) []) }
    ensures load_completes { OfEachCall S.Source T.Station (λ job s before after old new.
        AsksFor JobMode.Load job → ¬ Rose (T.say_faults old) (T.say_faults new)
        → (s ≡ Status.Done) ⊎ (s ≡ Status.NoMemory)) }
    ensures found_in_load { OfEachCall S.Source T.Station (λ job s before after old new.
        IfLoad job (λ line. OnlySays T.Station line old new)) }
{}

// ---- the making of a log

/// In init the disk was made the empty log where the call is done, and where the line that says so
/// could not be said; what bars it from that is told, and leaves it as it is.
pub fn init_makes_a_log<S: Source, T: Station>()
    ensures made { OfEachCall S.Source T.Station (λ job s before after old new.
        AsksFor JobMode.Init job → (s ≡ Status.Done) ⊎ (s ≡ Status.SayFault)
        → HasMade T.Station old new) }
    ensures ready { OfEachCall S.Source T.Station (λ job s before after old new.
        AsksFor JobMode.Init job → s ≡ Status.Done
        → Says (T.said old) (T.said new) ready_line) }
    ensures ready_after_say_fault { OfEachCall S.Source T.Station (λ job s before after old new.
        AsksFor JobMode.Init job → s ≡ Status.SayFault
        → SaysPart (T.said old) (T.said new) ready_line) }
    ensures not_a_log { OfEachCall S.Source T.Station (λ job s before after old new.
        AsksFor JobMode.Init job → s ≡ Status.NotALog
        → IsSpared T.Station LogFault.NotALog old new) }
    ensures already_a_log { OfEachCall S.Source T.Station (λ job s before after old new.
        s ≡ Status.AlreadyALog → IsSpared T.Station LogFault.AlreadyALog old new) }
    ensures init_after_no_memory { OfEachCall S.Source T.Station (λ job s before after old new.
        AsksFor JobMode.Init job → s ≡ Status.NoMemory → new ≡ old) }
    ensures barred { OfEachCall S.Source T.Station (λ job s before after old new.
        AsksFor JobMode.Init job → IfBarred (T.disk old) (λ bar. (s ≡ log_status bar)
        ⊎ ((s ≡ Status.DiskFault) ⊎ (s ≡ Status.NoMemory)))) }
    ensures init_completes { OfEachCall S.Source T.Station (λ job s before after old new.
        AsksFor JobMode.Init job → IsFree (T.disk old)
        → ¬ Rose (T.disk_faults old) (T.disk_faults new)
        → ¬ Rose (T.say_faults old) (T.say_faults new)
        → (s ≡ Status.Done) ⊎ (s ≡ Status.NoMemory)) }
    ensures found_in_init { OfEachCall S.Source T.Station (λ job s before after old new.
        AsksFor JobMode.Init job → StopsMaking T.Station old new) }
{}

// ---- the modes that open a log

/// A disk that does not begin as a log, and a log with a bad group, have each a status of its own
/// in the modes that open one, which comes nowhere else.
pub fn logs_are_opened_or_not<S: Source, T: Station>()
    ensures no_log { OfEachCall S.Source T.Station (λ job s before after old new.
        is_for is_opened job ≡ true → s ≡ Status.NotALog → IsUnlike T.Station old new) }
    ensures bad_log { OfEachCall S.Source T.Station (λ job s before after old new.
        (at : ℕ) → s ≡ Status.BadLog at
        → (is_for is_opened job ≡ true) × IsBadLog T.Station at old new) }
    ensures unlike { OfEachCall S.Source T.Station (λ job s before after old new.
        is_for is_opened job ≡ true → IfNoLog (T.disk old) ((s ≡ Status.NotALog)
        ⊎ ((s ≡ Status.DiskFault) ⊎ (s ≡ Status.NoMemory)))) }
    ensures broken { OfEachCall S.Source T.Station (λ job s before after old new.
        is_for is_opened job ≡ true → IfBadLog (T.disk old) (λ at. (s ≡ Status.BadLog at)
        ⊎ ((s ≡ Status.DiskFault) ⊎ (s ≡ Status.NoMemory)))) }
{
    logs_are_read_in_one_way();
}

/// In check the line of the log was said where it is done, a first part of it where it could not be
/// said, and nothing where there was no memory. Without a fault the check of a well-made log is
/// done, or there was no memory.
pub fn check_tells_of_a_log<S: Source, T: Station>()
    ensures checked { OfEachCall S.Source T.Station (λ job s before after old new.
        AsksFor JobMode.Check job → s ≡ Status.Done → SaysLine T.Station old new) }
    ensures check_after_say_fault { OfEachCall S.Source T.Station (λ job s before after old new.
        AsksFor JobMode.Check job → s ≡ Status.SayFault
        → SaysPartOfLine T.Station old new) }
    ensures check_after_no_memory { OfEachCall S.Source T.Station (λ job s before after old new.
        AsksFor JobMode.Check job → s ≡ Status.NoMemory → IsSilent T.Station old new) }
    ensures check_completes { OfEachCall S.Source T.Station (λ job s before after old new.
        AsksFor JobMode.Check job → IsWellMadeLog (T.disk old)
        → ¬ Rose (T.disk_faults old) (T.disk_faults new)
        → ¬ Rose (T.say_faults old) (T.say_faults new)
        → (s ≡ Status.Done) ⊎ (s ≡ Status.NoMemory)) }
    ensures check_tells { OfEachCall S.Source T.Station (λ job s before after old new.
        AsksFor JobMode.Check job → BeginsAsLog (T.disk old)
        → ¬ Rose (T.disk_faults old) (T.disk_faults new)
        → ¬ Rose (T.say_faults old) (T.say_faults new)
        → (s ≡ Status.Done) ⊎ ((s ≡ Status.NoMemory) ⊎ ((at : ℕ) × (s ≡ Status.BadLog at)))) }
    ensures found_in_check { OfEachCall S.Source T.Station (λ job s before after old new.
        AsksFor JobMode.Check job → StopsChecking T.Station old new) }
{
    logs_are_read_in_one_way();
}

/// In upgrade the log is one of format 2 that holds and keeps the same where the call is done, and
/// where the line that says so could not be said; and a disk that is no log, or a bad one, reads as
/// before. Without a fault the raising of a well-made log is done, or there was no memory.
pub fn upgrade_raises_a_log<S: Source, T: Station>()
    ensures raised { OfEachCall S.Source T.Station (λ job s before after old new.
        AsksFor JobMode.Upgrade job → (s ≡ Status.Done) ⊎ (s ≡ Status.SayFault)
        → HasRaised T.Station old new) }
    ensures said { OfEachCall S.Source T.Station (λ job s before after old new.
        AsksFor JobMode.Upgrade job → s ≡ Status.Done
        → Says (T.said old) (T.said new) raised_line) }
    ensures said_in_part { OfEachCall S.Source T.Station (λ job s before after old new.
        AsksFor JobMode.Upgrade job → s ≡ Status.SayFault
        → SaysPart (T.said old) (T.said new) raised_line) }
    ensures upgrade_after_no_memory { OfEachCall S.Source T.Station
        (λ job s before after old new.
        AsksFor JobMode.Upgrade job → s ≡ Status.NoMemory → IsLeftAlone T.Station old new) }
    ensures upgrade_left_alone { OfEachCall S.Source T.Station (λ job s before after old new.
        AsksFor JobMode.Upgrade job
        → (s ≡ Status.NotALog) ⊎ ((at : ℕ) × (s ≡ Status.BadLog at))
        → IsLeftAlone T.Station old new) }
    ensures upgrade_completes { OfEachCall S.Source T.Station (λ job s before after old new.
        AsksFor JobMode.Upgrade job → IsWellMadeLog (T.disk old)
        → ¬ Rose (T.disk_faults old) (T.disk_faults new)
        → ¬ Rose (T.say_faults old) (T.say_faults new)
        → (s ≡ Status.Done) ⊎ (s ≡ Status.NoMemory)) }
    ensures found_in_upgrade { OfEachCall S.Source T.Station (λ job s before after old new.
        AsksFor JobMode.Upgrade job → StopsRaising T.Station old new) }
{
    logs_are_read_in_one_way();
}

/// In run no log was opened, or one was and its session went on. Without a fault, on a well-made
/// log and within the limit, it is done, or there was no memory.
pub fn run_goes_on<S: Source, T: Station>()
    ensures run { OfEachCall S.Source T.Station (λ job s before after old new.
        AsksFor JobMode.Run job
        → EndsOnLog T.Station s (2 ^ 62) (S.left before) (S.left after) old new) }
    ensures run_completes { OfEachCall S.Source T.Station (λ job s before after old new.
        AsksFor JobMode.Run job → IsWellMadeLog (T.disk old)
        → IsWithinLimit (2 ^ 62) (S.left before)
        → ¬ Rose (S.faults before) (S.faults after)
        → ¬ Rose (T.say_faults old) (T.say_faults new)
        → ¬ Rose (T.disk_faults old) (T.disk_faults new)
        → (s ≡ Status.Done) ⊎ (s ≡ Status.NoMemory)) }
{
    logs_are_read_in_one_way();
}

// ---- exit numbers

/// The number of a status, which is the program's exit status, tells it, but for the place of a bad
/// group.
pub fn numbers_tell_statuses()
    ensures done { (s : StatusOf) → status_number s ≡ 0 → s ≡ Status.Done }
    ensures usage { (s : StatusOf) → status_number s ≡ 1 → s ≡ Status.Usage }
    ensures read_fault { (s : StatusOf) → status_number s ≡ 2 → s ≡ Status.ReadFault }
    ensures say_fault { (s : StatusOf) → status_number s ≡ 3 → s ≡ Status.SayFault }
    ensures disk_fault { (s : StatusOf) → status_number s ≡ 4 → s ≡ Status.DiskFault }
    ensures not_a_log { (s : StatusOf) → status_number s ≡ 5 → s ≡ Status.NotALog }
    ensures already_a_log { (s : StatusOf) → status_number s ≡ 6 → s ≡ Status.AlreadyALog }
    ensures bad_log { (s : StatusOf) → status_number s ≡ 7
        → (at : ℕ) × (s ≡ Status.BadLog at) }
    ensures no_memory { (s : StatusOf) → status_number s ≡ 8 → s ≡ Status.NoMemory }
    ensures input_limit { (s : StatusOf) → status_number s ≡ 9 → s ≡ Status.InputLimit }
{}
