//! What words of a command line ask for.
ghost use Rattle.spp_command_line.specs.Laws.{Advise, AdviseHelp, CommandAlone, CompareBoth, CompareInParts, Dash, Explained, FiguresInParts, GreatBurdens, Help, HelpBefore, JoinBurden, NoAdvise, NoCommand, NoCompare, NoParts, NoWorkers, OneWord, ProfileAsCsv, ProfileByWorkers, TwoBurdens, TwoWords, Version};

/// What the definitions say of words: of some shapes of words, and of lists of words worked by hand. Its contract is what
/// it is for.
pub fn word_laws()
    ensures command_alone { CommandAlone }
    ensures dash { Dash }
    ensures one_word { OneWord }
    ensures figures_in_parts { FiguresInParts }
    ensures profile_as_csv { ProfileAsCsv }
    ensures profile_by_workers { ProfileByWorkers }
    ensures explained { Explained }
    ensures join_burden { JoinBurden }
    ensures two_burdens { TwoBurdens }
    ensures great_burdens { GreatBurdens }
    ensures compare_both { CompareBoth }
    ensures compare_in_parts { CompareInParts }
    ensures no_compare { NoCompare }
    ensures no_command { NoCommand }
    ensures help { Help }
    ensures help_before { HelpBefore }
    ensures version { Version }
    ensures no_parts { NoParts }
    ensures no_workers { NoWorkers }
    ensures two_words { TwoWords }
    ensures advise { Advise }
    ensures no_advise { NoAdvise }
    ensures advise_help { AdviseHelp }
{}
