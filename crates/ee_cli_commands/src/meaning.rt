//! The meaning of words, as a law. The body does nothing; the clauses state the law.

ghost use Rattle.ee_cli_commands.specs.Answer.{AsksForHelpAlone, AsksForOne, AsksForVersionAlone, AsksUnrefused, NeverAsksForBoth};

/// The words of a line determine what they ask for.
///
/// - `one`: they ask for at most one thing. So the command that `read_command` returns is the only one
///   that they ask for, and the argument that it names the only one.
/// - `unrefused`: words that ask for something are not refused, and ask neither for help nor for the version.
/// - `help_alone`: words that ask for help are not refused with another error.
/// - `version_alone`: words that ask for the version are not refused with another error.
/// - `never_both`: no words ask both for help and for the version.
pub const fn one_meaning()
    ensures one { AsksForOne }
    ensures unrefused { AsksUnrefused }
    ensures help_alone { AsksForHelpAlone }
    ensures version_alone { AsksForVersionAlone }
    ensures never_both { NeverAsksForBoth }
{}
