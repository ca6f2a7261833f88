//! Laws of the definitions, each the contract of a function with no code.
ghost use Rattle.std.specs.Prelude.{◌≡◌, ℕ, List, [], ◌∷◌, Some, None, true, false, codes};
ghost use Rattle.clap.specs.declared.error.kind.ErrorKind.TheVariants.{DisplayHelp, DisplayVersion, MissingRequiredArgument};
ghost use Rattle.clap.specs.declared.error.kind.ErrorKind.TheVariants.{MissingSubcommand, UnknownArgument, ValueValidation};
ghost use Rattle.fa_settings.specs.CommandLine.{found_instead, wanted_in, Formats, Checks, Dumps, Serves, Asks, Plans, Talks, TalksOver};
ghost use Rattle.fa_settings.specs.CommandLine.{Verifies, VerifiesLog, PlansAsked};
ghost use Rattle.fa_settings.specs.declared.terms.Terms.TheVariants.{Closed, Whole, Unclean};
ghost use Rattle.std.specs.declared.alloc.Global.{Global};
ghost use Rattle.fa_settings.specs.Settings.{IsSettingsText, IsFault};
ghost use Rattle.fa_settings.specs.declared.settings.Settings.{Settings};
ghost use Rattle.fa_settings.specs.declared.fault.SettingsFault.{SettingsFault};
ghost use Rattle.fa_settings.specs.declared.fault.SettingsFault.TheVariants.{NoMemory};

/// A text that says settings has no fault: it is refused for want of memory alone.
pub fn settings_or_fault()
    ensures { (text : List ℕ) (settings : Settings Global) (fault : SettingsFault Global)
        → IsSettingsText text settings → IsFault text fault → fault ≡ NoMemory }
{}

/// The grammar of the command line has the words that it should: each command with its arguments, help of the
/// program and of each command, and the version; no words, and a word too many, are mistakes, and so are
/// settings left out, a die above 63 and a number of batches that is 0 or above 1,000,000. Nothing is asked for where `talk` has
/// no array and yet terms for one, where plans are counted with no file for them, and where `--unclean` and `--recover` stand
/// together.
pub fn words_of_the_command_line()
    ensures format { let words = codes "format" ∷ codes "a.toml" ∷ [] in
        (found_instead words ≡ []) × (wanted_in words ≡ Some (Formats (codes "a.toml") None)) }
    ensures format_one { let words = codes "format" ∷ codes "a.toml" ∷ codes "--die" ∷ codes "3" ∷ [] in
        (found_instead words ≡ []) × (wanted_in words ≡ Some (Formats (codes "a.toml") (Some (codes "3")))) }
    ensures check { let words = codes "check" ∷ codes "a.toml" ∷ [] in
        (found_instead words ≡ []) × (wanted_in words ≡ Some (Checks (codes "a.toml") Closed false)) }
    ensures check_unclean { let words = codes "check" ∷ codes "a.toml" ∷ codes "--unclean" ∷ [] in
        (found_instead words ≡ []) × (wanted_in words ≡ Some (Checks (codes "a.toml") Unclean false)) }
    ensures check_recover { let words = codes "check" ∷ codes "a.toml" ∷ codes "--recover" ∷ [] in
        (found_instead words ≡ []) × (wanted_in words ≡ Some (Checks (codes "a.toml") Whole false)) }
    ensures dump_json { let words = codes "dump" ∷ codes "--json" ∷ codes "a.toml" ∷ [] in
        (found_instead words ≡ []) × (wanted_in words ≡ Some (Dumps (codes "a.toml") Closed true)) }
    ensures serve { let words = codes "serve" ∷ codes "a.toml" ∷ [] in
        (found_instead words ≡ []) × (wanted_in words ≡ Some (Serves (codes "a.toml") Closed false None None)) }
    ensures serve_verbose { let words = codes "serve" ∷ codes "--verbose" ∷ codes "a.toml" ∷ [] in
        (found_instead words ≡ []) × (wanted_in words ≡ Some (Serves (codes "a.toml") Closed true None None)) }
    ensures serve_both { let words = codes "serve" ∷ codes "a.toml" ∷ codes "--unclean" ∷ codes "--verbose" ∷ [] in
        (found_instead words ≡ []) × (wanted_in words ≡ Some (Serves (codes "a.toml") Unclean true None None)) }
    ensures serve_recover { let words = codes "serve" ∷ codes "--recover" ∷ codes "a.toml" ∷ [] in
        (found_instead words ≡ []) × (wanted_in words ≡ Some (Serves (codes "a.toml") Whole false None None)) }
    ensures serve_status { let words = codes "serve" ∷ codes "a.toml" ∷ codes "--status" ∷ codes "[::1]:9100" ∷ [] in
        (found_instead words ≡ []) × (wanted_in words ≡ Some (Serves (codes "a.toml") Closed false (Some (codes "[::1]:9100")) None)) }
    ensures serve_plans { let words = codes "serve" ∷ codes "a.toml" ∷ codes "--plans" ∷ codes "a.plans" ∷ [] in
        let plans : PlansAsked = record { path = codes "a.plans"; every = None } in
        (found_instead words ≡ []) × (wanted_in words ≡ Some (Serves (codes "a.toml") Closed false None (Some plans))) }
    ensures serve_some_plans { let words =
        codes "serve" ∷ codes "a.toml" ∷ codes "--plans-every" ∷ codes "9" ∷ codes "--plans" ∷ codes "a.plans" ∷ [] in
        let plans : PlansAsked = record { path = codes "a.plans"; every = Some (codes "9") } in
        (found_instead words ≡ []) × (wanted_in words ≡ Some (Serves (codes "a.toml") Closed false None (Some plans))) }
    ensures plans_with_no_file { let words = codes "serve" ∷ codes "a.toml" ∷ codes "--plans-every" ∷ codes "9" ∷ [] in
        (found_instead words ≡ []) × (wanted_in words ≡ None) }
    ensures every_too_small { found_instead (codes "serve" ∷ codes "a.toml" ∷ codes "--plans-every" ∷ codes "0" ∷ [])
        ≡ ValueValidation ∷ [] }
    ensures every_too_great { found_instead (codes "serve" ∷ codes "a.toml" ∷ codes "--plans-every" ∷ codes "1000001" ∷ [])
        ≡ ValueValidation ∷ [] }
    ensures status { let words = codes "status" ∷ codes "127.0.0.1:9100" ∷ [] in
        (found_instead words ≡ []) × (wanted_in words ≡ Some (Asks (codes "127.0.0.1:9100") false)) }
    ensures status_watch { let words = codes "status" ∷ codes "--watch" ∷ codes "127.0.0.1:9100" ∷ [] in
        (found_instead words ≡ []) × (wanted_in words ≡ Some (Asks (codes "127.0.0.1:9100") true)) }
    ensures terms_of_two_kinds { let words = codes "serve" ∷ codes "a.toml" ∷ codes "--recover" ∷ codes "--unclean" ∷ [] in
        (found_instead words ≡ []) × (wanted_in words ≡ None) }
    ensures no_settings { found_instead (codes "check" ∷ []) ≡ MissingRequiredArgument ∷ [] }
    ensures die_too_great { found_instead (codes "format" ∷ codes "a.toml" ∷ codes "--die" ∷ codes "64" ∷ []) ≡ ValueValidation ∷ [] }
    ensures plan { (found_instead (codes "plan" ∷ []) ≡ []) × (wanted_in (codes "plan" ∷ []) ≡ Some Plans) }
    ensures talk { (found_instead (codes "talk" ∷ []) ≡ []) × (wanted_in (codes "talk" ∷ []) ≡ Some Talks) }
    ensures talk_array { let words = codes "talk" ∷ codes "--array" ∷ codes "a.toml" ∷ [] in
        (found_instead words ≡ []) × (wanted_in words ≡ Some (TalksOver (codes "a.toml") Closed)) }
    ensures talk_unclean { let words = codes "talk" ∷ codes "--unclean" ∷ codes "--array" ∷ codes "a.toml" ∷ [] in
        (found_instead words ≡ []) × (wanted_in words ≡ Some (TalksOver (codes "a.toml") Unclean)) }
    ensures talk_recover { let words = codes "talk" ∷ codes "--array" ∷ codes "a.toml" ∷ codes "--recover" ∷ [] in
        (found_instead words ≡ []) × (wanted_in words ≡ Some (TalksOver (codes "a.toml") Whole)) }
    ensures talk_recover_without { let words = codes "talk" ∷ codes "--recover" ∷ [] in
        (found_instead words ≡ []) × (wanted_in words ≡ None) }
    ensures talk_without { let words = codes "talk" ∷ codes "--unclean" ∷ [] in (found_instead words ≡ []) × (wanted_in words ≡ None) }
    ensures verify { (found_instead (codes "verify" ∷ []) ≡ []) × (wanted_in (codes "verify" ∷ []) ≡ Some Verifies) }
    ensures verify_log { let words = codes "verify" ∷ codes "--log" ∷ codes "a.plans" ∷ [] in
        (found_instead words ≡ []) × (wanted_in words ≡ Some (VerifiesLog (codes "a.plans"))) }
    ensures help { (found_instead (codes "--help" ∷ []) ≡ DisplayHelp ∷ [])
        × (found_instead (codes "-h" ∷ []) ≡ DisplayHelp ∷ []) }
    ensures help_of_check { found_instead (codes "check" ∷ codes "--help" ∷ []) ≡ DisplayHelp ∷ [] }
    ensures help_of_serve { found_instead (codes "serve" ∷ codes "--help" ∷ []) ≡ DisplayHelp ∷ [] }
    ensures help_of_status { found_instead (codes "status" ∷ codes "--help" ∷ []) ≡ DisplayHelp ∷ [] }
    ensures help_of_plan { found_instead (codes "plan" ∷ codes "--help" ∷ []) ≡ DisplayHelp ∷ [] }
    ensures help_of_talk { found_instead (codes "talk" ∷ codes "--help" ∷ []) ≡ DisplayHelp ∷ [] }
    ensures help_of_verify { found_instead (codes "verify" ∷ codes "--help" ∷ []) ≡ DisplayHelp ∷ [] }
    ensures version { (found_instead (codes "--version" ∷ []) ≡ DisplayVersion ∷ [])
        × (found_instead (codes "-V" ∷ []) ≡ DisplayVersion ∷ []) }
    ensures none { found_instead [] ≡ MissingSubcommand ∷ [] }
    ensures too_many { found_instead (codes "talk" ∷ codes "talk" ∷ []) ≡ UnknownArgument ∷ [] }
{}
