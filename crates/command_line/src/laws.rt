//! Laws of the definitions. The functions do nothing.
ghost use Rattle.command_line.specs.Laws.{FormsAgree, HelpIsRefused, SeparatorEndsOptions};

/// Behind `--` any word that may name a file is the program's name.
pub fn separator_ends_options()
    ensures { SeparatorEndsOptions }
{}

/// An option's value may stand in the next word or after `=`, unless it begins with `-`.
pub fn forms_agree()
    ensures { FormsAgree }
{}

/// `-h`, `--help`, `-V` and `--version` are refused in any place before `--`.
pub fn help_is_refused()
    ensures { HelpIsRefused }
{}
