// The options as they are told.
ghost use Rattle.std.specs.Prelude.{◌≡◌, IfOk, option_copied};
ghost use Rattle.std.specs.Option.{option_map};
ghost use Rattle.option_set.specs.Values.{OptionValues, shown_options};
ghost use Rattle.option_set.specs.declared.kinds.Scope.TheVariants as scope;
ghost use Rattle.run_report.specs.declared.kinds.Reply.TheVariants as replies;
ghost use Rattle.machine_core.specs.Replays.{replay_of};
ghost use Rattle.run_report.specs.Replies as spec;

use crate::{Pairs, Reply};
use dl_kinds::Gid;
use machine_core::Machine;
use option_set::{Options, Scope};
use std::alloc::{AllocError, Global};

fn shown(alloc: Global, options: &Options, scope: Scope) -> Result<Reply, AllocError>
    ensures { IfOk result (λ reply. reply ≡ replies.Options (shown_options options.now scope)) }
{
    Ok(Reply::Options(Pairs::of(options.shown(alloc, scope)?)))
}

fn shown_if(alloc: Global, options: Option<&Options>) -> Result<Option<Reply>, AllocError>
    ensures { IfOk result (λ reply. reply ≡ option_map (λ (values : OptionValues).
        replies.Options (shown_options values scope.Download)) (option_copied options.entry)) }
{
    match options {
        Some(options) => Ok(Some(shown(alloc, options, Scope::Download)?)),
        None => Ok(None),
    }
}

/// The options of a download.
pub(crate) fn options_reply(
    machine: &Machine,
    alloc: Global,
    gid: Gid,
) -> Result<Option<Reply>, AllocError>
    ensures { IfOk result (λ reply. reply
        ≡ spec.options_reply machine.now.start machine.now.past gid) }
{
    shown_if(alloc, machine.options(gid))
}

/// The global options, without the secret.
pub(crate) fn global_reply(machine: &Machine, alloc: Global) -> Result<Reply, AllocError>
    ensures { IfOk result (λ reply. reply ≡ replies.Options (shown_options
        (replay_of machine.now.start machine.now.past).global scope.Global)) }
{
    shown(alloc, machine.global(), Scope::Global)
}
