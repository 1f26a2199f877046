//! The command, as `clap` knows it.
ghost use Rattle.std.specs.Prelude.{◌≡◌, IfOk, false};
ghost use Rattle.clap.specs.Words.{app_of, rule_of};
ghost use Rattle.command_line.specs.Command.{launch_app, option_argument};

use clap::{Arg, ArgAction, Command};
use std::alloc::{AllocError, Global};

// An option that stands at most once and has one value.
fn option<'a>(alloc: Global, name: &'a str) -> Arg<'a>
    ensures rule { rule_of result ≡ option_argument name.entry.now }
    ensures local { result.global ≡ false }
{
    Arg::new(alloc, name).long(name)
}

/// The command: six options, a flag and the program's name, with no option for help.
pub(crate) fn launch_command<'a>(alloc: Global) -> Result<Command<'a>, AllocError>
    ensures { IfOk result (λ command. app_of command ≡ launch_app) }
{
    Command::new(alloc, "cloudabi-run")
        .disable_help_flag(true)
        .arg(option(alloc, "tree"))?
        .arg(option(alloc, "stdin"))?
        .arg(option(alloc, "workers"))?
        .arg(option(alloc, "turns"))?
        .arg(option(alloc, "key"))?
        .arg(option(alloc, "epoch"))?
        .arg(
            Arg::new(alloc, "history")
                .long("history")
                .action(ArgAction::SetTrue),
        )?
        .arg(Arg::new(alloc, "program").required(true))
}
