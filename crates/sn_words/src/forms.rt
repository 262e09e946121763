//! The program's commands, as `clap` is told of them.
ghost use Rattle.std.specs.Prelude.{◌≡◌, IfOk, false, map};
ghost use Rattle.clap.specs.Words.{app_of, new_app, with_rule, with_subcommand};
ghost use Rattle.clap.specs.declared.builder.Command.TheViews.{out-Command as fields_of};
ghost use Rattle.sn_words.specs.Clap.{bare, leaf_of, program, told_option, told_word, with_options, with_words};

use crate::numbers::{BATCH, DEPTH, FUEL, PLAN, QUEUE, WORKERS};
use clap::Arg;
use sn_list::{Boxed, Memory};
use std::alloc::{AllocError, Global};

/// The names of positional words.
pub(crate) const SOURCE: &str = "SOURCE";

pub(crate) const INPUT: &str = "INPUT";

pub(crate) const TRACE: &str = "TRACE";

pub(crate) const SEED: &str = "SEED";

pub(crate) const COUNT: &str = "COUNT";

/// A command with one more positional word, which is wanted.
fn with_word<'a>(
    alloc: Global,
    form: clap::Command<'a>,
    word: &'a str,
) -> Result<clap::Command<'a>, AllocError>
    ensures shape { IfOk result (λ longer. app_of longer ≡ with_rule (app_of form.entry) (told_word word.entry.now)) }
    ensures local { IfOk result (λ longer. (fields_of form.entry).has_globals ≡ false → (fields_of longer).has_globals ≡ false) }
{
    form.arg(Arg::new(alloc, word).required(true))
}

/// A command with one more option, which has a value.
fn with_option<'a>(
    alloc: Global,
    form: clap::Command<'a>,
    option: &'a str,
) -> Result<clap::Command<'a>, AllocError>
    ensures shape { IfOk result (λ longer. app_of longer ≡ with_rule (app_of form.entry) (told_option option.entry.now)) }
    ensures local { IfOk result (λ longer. (fields_of form.entry).has_globals ≡ false → (fields_of longer).has_globals ≡ false) }
{
    form.arg(Arg::new(alloc, option).long(option))
}

/// One command, as `clap` is told of it: its positional words in order, and its options.
fn command_form<'a>(
    alloc: Global,
    name: &'a str,
    words: &[&'a str],
    options: &[&'a str],
) -> Result<clap::Command<'a>, AllocError>
    ensures shape { IfOk result (λ form. app_of form ≡ with_options (with_words (new_app name.entry.now) (map (λ word. word.now) words.now)) (map (λ option. option.now) options.now)) }
    ensures local { IfOk result (λ form. (fields_of form).has_globals ≡ false) }
{
    let mut form = clap::Command::new(alloc, name);
    for word in words {
        form = with_word(alloc, form, word)?;
    }
    for option in options {
        form = with_option(alloc, form, option)?;
    }
    Ok(form)
}

/// The program without its commands. It wants one, and gives no help.
fn bare_form<'a>(alloc: Global) -> clap::Command<'a>
    ensures { app_of result ≡ bare }
{
    clap::Command::new(alloc, "snet")
        .no_binary_name(true)
        .disable_help_flag(true)
        .disable_help_subcommand(true)
        .subcommand_required(true)
}

/// The program with one more command. Nothing but the program is alive where a command is asked for, and that on the heap, since each form
/// of `clap` that is given up or handed on is proved part by part.
fn with_command<'a>(
    alloc: Global,
    program: Boxed<clap::Command<'a>>,
    name: &'a str,
    words: &[&'a str],
    options: &[&'a str],
) -> Result<Boxed<clap::Command<'a>>, Memory>
    ensures { IfOk result (λ form. app_of form ≡ with_subcommand (app_of program.entry) (leaf_of name.entry.now (map (λ word. word.now) words.now) (map (λ option. option.now) options.now)).top) }
{
    let command = command_form(alloc, name, words, options)?;
    let program = program.into_inner().subcommand(command)?;
    Boxed::new(alloc, program)
}

/// The program's commands, as `clap` is told of them.
pub(crate) fn program_form<'a>(alloc: Global) -> Result<Boxed<clap::Command<'a>>, Memory>
    ensures { IfOk result (λ form. app_of form ≡ program) }
{
    let form = Boxed::new(alloc, bare_form(alloc))?;
    let form = with_command(
        alloc,
        form,
        "run",
        &[SOURCE, INPUT],
        &[PLAN.name, WORKERS.name, FUEL.name, DEPTH.name, QUEUE.name],
    )?;
    let form = with_command(
        alloc,
        form,
        "once",
        &[SOURCE, INPUT],
        &[FUEL.name, DEPTH.name],
    )?;
    let form = with_command(alloc, form, "check", &[SOURCE], &[])?;
    let form = with_command(alloc, form, "print", &[SOURCE], &[])?;
    let form = with_command(alloc, form, "plan", &[SOURCE], &[])?;
    let form = with_command(
        alloc,
        form,
        "trace",
        &[SOURCE, INPUT],
        &[WORKERS.name, FUEL.name, DEPTH.name, QUEUE.name],
    )?;
    let form = with_command(
        alloc,
        form,
        "replay",
        &[SOURCE, INPUT, TRACE],
        &[FUEL.name, DEPTH.name],
    )?;
    let form = with_command(
        alloc,
        form,
        "feed",
        &[SOURCE, INPUT],
        &[BATCH.name, FUEL.name, DEPTH.name],
    )?;
    with_command(alloc, form, "sample", &[SEED, COUNT], &[])
}
