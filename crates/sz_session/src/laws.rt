//! Laws of the definitions, for a reader: each function does nothing, and its contract is the law.

ghost use Rattle.sz_session.specs.Terms.{LinesAreThoseJoined, BytesLeftAreTheLastLine};
ghost use Rattle.sz_session.specs.Terms.{EachTextIsLines, CutsAreThoseJoined, LinesAreTheCut};
ghost use Rattle.sz_session.specs.Terms.{CutsGoByParts, CutsBehindAreOfBoth, TellingGoesByParts};
ghost use Rattle.sz_session.specs.Terms.{MomentsGoByParts, WholeLinesAreTold, TranscriptsAreTold};
ghost use Rattle.sz_session.specs.Terms.{AlikeTellTheSame, AlikeStayAlike, AlikeEndTheSame};
ghost use Rattle.sz_session.specs.Terms.{FirstRepliesAreAPart, RepliesGoOn, TranscriptsGoOn};
ghost use Rattle.sz_session.specs.Terms.{BlankLinesAreCounted, OtherLinesHaveOneReply};
ghost use Rattle.sz_session.specs.Terms.{SessionsOfNoLogArePlain, SoundLogsArePlain};
ghost use Rattle.sz_session.specs.Terms.{OpenedLogsStand, OneLineIsTold, SoundLinesMeanEach};

use sz_versions::sound_stores_tell_the_kinds;

/// The lines of a text are the bytes between its newlines, and those behind the last one where
/// there are any.
pub fn lines_are_those_joined_by_newlines()
    ensures joined { LinesAreThoseJoined }
    ensures last { BytesLeftAreTheLastLine }
    ensures each { EachTextIsLines }
{}

/// The whole lines of a text, and the bytes of the line that has not ended.
pub fn lines_are_cut_where_they_end()
    ensures joined { CutsAreThoseJoined }
    ensures lines { LinesAreTheCut }
    ensures parts { CutsGoByParts }
    ensures both { CutsBehindAreOfBoth }
{}

/// What bytes tell as they come does not depend on where they are cut.
pub fn telling_goes_by_parts()
    ensures told { TellingGoesByParts }
    ensures moments { MomentsGoByParts }
    ensures whole { WholeLinesAreTold }
    ensures transcripts { TranscriptsAreTold }
{}

/// Moments that are alike cannot be told apart by what is said.
pub fn alike_moments_tell_the_same()
    ensures told { AlikeTellTheSame }
    ensures alike { AlikeStayAlike }
    ensures end { AlikeEndTheSame }
{}

/// What is said where memory is refused is no more than a first part of what was to be said.
pub fn first_replies_are_a_part()
    ensures { FirstRepliesAreAPart }
{}

/// A session goes on from what its lines so far left, wherever it is cut between lines.
pub fn sessions_go_on()
    ensures replies { RepliesGoOn }
    ensures transcripts { TranscriptsGoOn }
{}

/// A blank line is counted and has no reply; each other line has one.
pub fn each_line_has_one_reply_unless_blank()
    ensures blank { BlankLinesAreCounted }
    ensures other { OtherLinesHaveOneReply }
{}

/// A session of no log goes by the catalogue alone: its transcript is `plain_transcript` of
/// `specs/Plain`, in whose definitions no store stands.
pub fn sessions_of_no_log_are_plain()
    ensures { SessionsOfNoLogArePlain }
{}

/// All that is held of a log that was opened is durable, so the log stands beside the session of
/// what it held, as [`crate::Session::command`] asks.
pub fn opened_logs_stand()
    ensures { OpenedLogsStand }
{}

/// A session on a sound log says what its catalogue alone tells: `plain_transcript` of
/// `specs/Plain`, in whose definitions no store stands.
pub fn sound_logs_are_plain()
    ensures { SoundLogsArePlain }
{
    // the numbers of merged stores are those of the relation too
    sound_stores_tell_the_kinds();
}

/// One line can be said of what a log keeps. Where it is that of a sound log, each store stands for
/// exactly the relation of the operator that was executed at its node.
pub fn one_line_is_told_of_a_log()
    ensures one { OneLineIsTold }
    ensures sound { SoundLinesMeanEach }
{}
