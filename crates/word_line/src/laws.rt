//! What holds of words and commands, as laws.

ghost use Rattle.std.specs.Prelude.{◌≡◌, ◌⊎◌, ℕ, List, [], ◌∷◌, None, Some, codes};
ghost use Rattle.word_line.specs.Commands.{IsCommand, IsUsage};
ghost use Rattle.word_line.specs.Reading.{command_with};
ghost use Rattle.word_line.specs.ScanCommands.{IsScanCommand, IsScanUsage};
ghost use Rattle.word_line.specs.declared.command.Command.{Command};
ghost use Rattle.word_line.specs.declared.command.Form.TheVariants.{Pd, Gauss};
ghost use Rattle.word_line.specs.declared.command.Task.TheVariants.{Bench, Certify, Homology, Convert, Jones, Reduced, Verify};
ghost use Rattle.word_line.specs.declared.scan_command.Fields.TheVariants.{All, One};
ghost use Rattle.word_line.specs.declared.scan_command.ScanCommand.{ScanCommand};
ghost use Rattle.word_line.specs.declared.scan_command.ScanCommand.TheVariants.{Alone, Each};

use crate::limits::{MARK_DIGITS, MARK_LIMIT, NUMBER_DIGITS, WORKERS_DIGITS};

/// The values of the limits, which the definitions name and do not write out.
pub fn limits_of_words()
    ensures number { NUMBER_DIGITS ≡ 7 }
    ensures mark { MARK_DIGITS ≡ 3 }
    ensures marks { MARK_LIMIT ≡ 255 }
    ensures workers { WORKERS_DIGITS ≡ 2 }
{}

/// Words mean one command at most.
pub fn words_mean_one_command()
    ensures one { (words : List (List ℕ)) (first second : Command)
        → IsCommand words first → IsCommand words second → first ≡ second }
{}

/// Words mean a command, or they mean none.
pub fn words_are_decided()
    ensures decided { (words : List (List ℕ))
        → ((command : Command) × IsCommand words command) ⊎ IsUsage words }
{}

/// Words that mean a command, worked out.
pub fn worked_commands()
    ensures alone { IsCommand (codes "homology" ∷ []) (command_with Homology 2 1 Pd None None) }
    ensures joined { IsCommand (codes "--field=3" ∷ codes "homology" ∷ [])
        (command_with Homology 3 1 Pd None None) }
    ensures behind { IsCommand (codes "--" ∷ codes "homology" ∷ [])
        (command_with Homology 2 1 Pd None None) }
    ensures ended { IsCommand (codes "jones" ∷ codes "--" ∷ [])
        (command_with Jones 2 1 Pd None None) }
    ensures all { IsCommand (codes "--to" ∷ codes "gauss" ∷ codes "convert" ∷ codes "--workers=07"
        ∷ codes "--field" ∷ codes "7" ∷ codes "--number"
        ∷ codes "0000000" ∷ []) (command_with Convert 7 7 Gauss (Some 0) None) }
    ensures most { IsCommand (codes "homology" ∷ codes "--workers" ∷ codes "64" ∷ [])
        (command_with Homology 2 64 Pd None None) }
    ensures numbered { IsCommand (codes "bench" ∷ codes "--number" ∷ codes "1234567" ∷ [])
        (command_with Bench 2 1 Pd (Some 1234567) None) }
    ensures marked { IsCommand (codes "reduced" ∷ codes "--mark" ∷ codes "255" ∷ [])
        (command_with Reduced 2 1 Pd None (Some 255)) }
    ensures certified { IsCommand (codes "certify" ∷ codes "--field" ∷ codes "5" ∷ [])
        (command_with Certify 5 1 Pd None None) }
    ensures verified { IsCommand (codes "verify" ∷ []) (command_with Verify 2 1 Pd None None) }
    ensures idle { IsCommand (codes "--mark=007" ∷ codes "jones" ∷ [])
        (command_with Jones 2 1 Pd None (Some 7)) }
{}

/// Words that mean no command, worked out.
pub fn worked_usage()
    ensures nothing { IsUsage [] }
    ensures none { IsUsage (codes "homology" ∷ codes "--workers" ∷ codes "0" ∷ []) }
    ensures many { IsUsage (codes "homology" ∷ codes "--workers" ∷ codes "65" ∷ []) }
    ensures long { IsUsage (codes "homology" ∷ codes "--workers" ∷ codes "001" ∷ []) }
    ensures twice { IsUsage (codes "homology" ∷ codes "--field" ∷ codes "2"
        ∷ codes "--field" ∷ codes "2" ∷ []) }
    ensures unnumbered { IsUsage (codes "bench" ∷ []) }
    ensures unmarked { IsUsage (codes "reduced" ∷ []) }
    ensures above { IsUsage (codes "reduced" ∷ codes "--mark" ∷ codes "256" ∷ []) }
    ensures digits { IsUsage (codes "reduced" ∷ codes "--mark" ∷ codes "0001" ∷ []) }
    ensures help { IsUsage (codes "homology" ∷ codes "--help" ∷ []) }
    ensures short { IsUsage (codes "homology" ∷ codes "-h" ∷ []) }
    ensures shortened { IsUsage (codes "homology" ∷ codes "--work" ∷ codes "2" ∷ []) }
    ensures dashes { IsUsage (codes "--field" ∷ codes "--" ∷ codes "homology" ∷ []) }
    ensures dash { IsUsage (codes "-" ∷ []) }
    ensures second { IsUsage (codes "homology" ∷ codes "--" ∷ codes "--field" ∷ []) }
{}

/// Words mean one command of `kh-scan` at most.
pub fn scan_words_mean_one_command()
    ensures one { (words : List (List ℕ)) (first second : ScanCommand)
        → IsScanCommand words first → IsScanCommand words second → first ≡ second }
{}

/// Words mean a command of `kh-scan`, or they mean none.
pub fn scan_words_are_decided()
    ensures decided { (words : List (List ℕ))
        → ((command : ScanCommand) × IsScanCommand words command) ⊎ IsScanUsage words }
{}

/// Words that mean a command of `kh-scan`, worked out.
pub fn worked_scan_commands()
    ensures nothing { IsScanCommand [] (Alone 2) }
    ensures list { IsScanCommand (codes "each" ∷ []) (Each (One 2)) }
    ensures joined { IsScanCommand (codes "--field=3" ∷ []) (Alone 3) }
    ensures apart { IsScanCommand (codes "--field" ∷ codes "5" ∷ []) (Alone 5) }
    ensures all { IsScanCommand (codes "each" ∷ codes "--field" ∷ codes "all" ∷ [])
        (Each All) }
    ensures behind { IsScanCommand (codes "--" ∷ codes "each" ∷ []) (Each (One 2)) }
    ensures ended { IsScanCommand (codes "each" ∷ codes "--" ∷ []) (Each (One 2)) }
    ensures dashes { IsScanCommand (codes "--" ∷ []) (Alone 2) }
    ensures first { IsScanCommand (codes "--field" ∷ codes "7" ∷ codes "each" ∷ [])
        (Each (One 7)) }
{}

/// Words that mean no command of `kh-scan`, worked out.
pub fn worked_scan_usage()
    ensures homology { IsScanUsage (codes "homology" ∷ []) }
    ensures workers { IsScanUsage (codes "--workers" ∷ codes "2" ∷ []) }
    ensures all { IsScanUsage (codes "--field" ∷ codes "all" ∷ []) }
    ensures second { IsScanUsage (codes "each" ∷ codes "each" ∷ []) }
    ensures four { IsScanUsage (codes "each" ∷ codes "--field" ∷ codes "4" ∷ []) }
    ensures twice { IsScanUsage (codes "--field" ∷ codes "2" ∷ codes "--field" ∷ codes "2" ∷ []) }
    ensures short { IsScanUsage (codes "-h" ∷ []) }
    ensures help { IsScanUsage (codes "--help" ∷ []) }
    ensures shortened { IsScanUsage (codes "--fiel" ∷ codes "2" ∷ []) }
    ensures dash { IsScanUsage (codes "-" ∷ []) }
    ensures dashes { IsScanUsage (codes "--field" ∷ codes "--" ∷ []) }
    ensures mark { IsScanUsage (codes "each" ∷ codes "--mark" ∷ codes "1" ∷ []) }
    ensures alone { IsScanUsage (codes "--field" ∷ []) }
    ensures empty { IsScanUsage ([] ∷ []) }
{}
