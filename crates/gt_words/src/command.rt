// The command line, as `clap` is told of it.
ghost use Rattle.std.specs.Prelude.{◌≡◌, IfOk, false};
ghost use Rattle.clap.specs.Walk.{rule_of};
ghost use Rattle.clap.specs.Simple.{app_of};
ghost use Rattle.gt_words.specs.Commands.{option_rule, script_rule, header_rule, our_app};

use clap::{Arg, ArgAction, Command};
use std::alloc::{AllocError, Global};

/// The command whose matches the words have: three options, the script and the headers.
#[tactic(auto, unfolding(crate::specs::Commands::our_app))]
pub fn command<'a>(alloc: Global) -> Result<Command<'a>, AllocError>
    ensures { IfOk result (λ c. app_of c ≡ our_app) }
{
    Command::new(alloc, "gtyheap")
        .no_binary_name(true)
        .arg(option(alloc, "space"))?
        .arg(option(alloc, "min-expand"))?
        .arg(option(alloc, "min-heapsize"))?
        .arg(script(alloc))?
        .arg(header(alloc))
}

// An option with one value.
fn option<'a>(alloc: Global, name: &'a str) -> Arg<'a>
    ensures rule { rule_of result ≡ option_rule name.entry.now }
    ensures local { result.global ≡ false }
{
    Arg::new(alloc, name).long(name)
}

fn script<'a>(alloc: Global) -> Arg<'a>
    ensures rule { rule_of result ≡ script_rule }
    ensures local { result.global ≡ false }
{
    Arg::new(alloc, "script").required(true)
}

fn header<'a>(alloc: Global) -> Arg<'a>
    ensures rule { rule_of result ≡ header_rule }
    ensures local { result.global ≡ false }
{
    Arg::new(alloc, "header").action(ArgAction::Append)
}
