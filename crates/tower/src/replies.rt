//! The replies of `run` to states.
ghost use Rattle.std.specs.Prelude.{◌≡◌, length, map, IfOk, IfErr};
ghost use Rattle.std.specs.List.{AllByRecursion, list_any};
ghost use Rattle.tw_text.specs.declared.limits.TheConstants.{DEPTH_LIMIT};
ghost use Rattle.tw_syntax.specs.Programs.{program_tree};
ghost use Rattle.tw_resolve.specs.Declarations.{funs_of};
ghost use Rattle.tw_resolve.specs.Resolved.{resolved_setting};
ghost use Rattle.tw_check.specs.EntryPoints.{IsEntry};
ghost use Rattle.tw_state.specs.Depth.{EntryWithin};
ghost use Rattle.tw_state.specs.FromCode.{listed_of};
ghost use Rattle.tw_interp.specs.Following.{reason_of};
ghost use Rattle.tw_interp.specs.Runs.{IsGivenTo};
ghost use Rattle.tw_interp.specs.StuckLines.{stuck_line};
ghost use Rattle.tower.specs.declared.ending.Unanswered.TheVariants as unanswered;
ghost use Rattle.tower.specs.Run.{is_stuck};
ghost use Rattle.tower.specs.Replies.{AreRepliesOf, HasText, IsReplyOf, WroteFollowing, WroteReplies, WroteReply, reply_seen};

use crate::ending::Unanswered;
use bumpalo::Bump;
use itoa::Buffer;
use std::alloc::Global;
use tw_check::{Checked, Entry};
use tw_interp::{Reason, RunFault, Runner, last_side};
use tw_io::{Sink, WriteFault, write_all};
use tw_state::{SEPARATOR, State, print_state};
use tw_text::{Arena, DiagnosticLine, Pos};

/// What a run answers for a state.
#[derive(Drop)]
pub enum Reply {
    /// The result; of a run back, the state whose result is given.
    Ends(State),
    /// A statement is stuck. The place is its first token.
    Sticks { reason: Reason, at: Pos },
}

impl Reply {
    /// Whether a statement is stuck.
    fn is_stuck(&self) -> bool
        ensures { result ≡ is_stuck (reply_seen self.now) }
    {
        match self {
            Reply::Ends(_) => false,
            Reply::Sticks { .. } => true,
        }
    }
}

/// The reply to a state. An error: out of memory.
fn reply_to(runner: &Runner, back: bool, state: State) -> Result<Reply, Unanswered>
    requires entry { IsEntry (funs_of (program_tree runner.now.checked.now.resolved.program.now).decls) runner.now.entry }
    requires given { IsGivenTo (resolved_setting runner.now.checked.now.resolved) runner.now.entry.fun back (listed_of state) }
    requires depth { EntryWithin (resolved_setting runner.now.checked.now.resolved) DEPTH_LIMIT runner.now.entry.fun runner.now.entry.bound }
    ensures reply { IfOk result (λ reply. IsReplyOf (resolved_setting runner.now.checked.now.resolved) runner.now.entry.fun runner.now.entry.bound back (listed_of state) (reply_seen reply)) }
    ensures printable { IfOk result (λ reply. HasText (resolved_setting runner.now.checked.now.resolved) runner.now.entry.fun back (reply_seen reply)) }
    ensures memory { IfErr result (λ e. e ≡ unanswered.Memory) }
{
    match runner.run(state, back) {
        Ok(answer) => Ok(Reply::Ends(answer)),
        Err(RunFault::Stuck { reason, at }) => Ok(Reply::Sticks { reason, at }),
        Err(RunFault::Memory) => Err(Unanswered::Memory),
    }
}

/// The replies to states, in the order of the states. The states are taken from the end, so the last one runs first. An error: out of
/// memory.
pub fn replies_to(
    alloc: Global,
    checked: &Checked<'_>,
    entry: Entry,
    back: bool,
    mut states: Vec<State>,
) -> Result<Vec<Reply>, Unanswered>
    requires entry { IsEntry (funs_of (program_tree checked.now.resolved.program.now).decls) entry }
    requires given { AllByRecursion (IsGivenTo (resolved_setting checked.now.resolved) entry.fun back) (map listed_of states.items) }
    requires depth { EntryWithin (resolved_setting checked.now.resolved) DEPTH_LIMIT entry.fun entry.bound }
    ensures replies { IfOk result (λ replies. AreRepliesOf (resolved_setting checked.now.resolved) entry.fun entry.bound back (map listed_of states.items) (map reply_seen replies.items)) }
    ensures printable { IfOk result (λ replies. AllByRecursion (HasText (resolved_setting checked.now.resolved) entry.fun back) (map reply_seen replies.items)) }
    ensures memory { IfErr result (λ e. e ≡ unanswered.Memory) }
{
    let arena: Arena = Bump::new(alloc);
    let runner = Runner::new(alloc, &arena, checked, entry)?;
    let mut replies = Vec::new(alloc);
    while let Some(state) = states.pop() {
        replies.push(reply_to(&runner, back, state)?)?;
    }
    replies.reverse();
    Ok(replies)
}

/// Whether a statement is stuck in one of the replies.
pub fn is_one_stuck(replies: &[Reply]) -> bool
    ensures { result ≡ list_any (λ reply. is_stuck (reply_seen reply)) replies.now }
{
    replies.iter().any(|reply| reply.is_stuck())
}

/// The line of a statement that is stuck, with its newline.
fn stuck_line(reason: Reason, at: Pos) -> DiagnosticLine
    ensures { result.bytes ≡ stuck_line (reason_of reason) at }
{
    let mut line = DiagnosticLine::new();
    line.push_str("stuck ");
    line.push_str(reason.name());
    line.push_str(" at ");
    line.push_str(Buffer::new().format(at.line));
    line.push_str(":");
    line.push_str(Buffer::new().format(at.col));
    line.push_str("\n");
    line
}

/// Writes a reply: its state on the side at which the run ends, or the line of the statement that is stuck.
fn write_reply<K: Sink>(
    output: &mut K,
    checked: &Checked<'_>,
    entry: Entry,
    back: bool,
    reply: &Reply,
) -> Result<(), WriteFault>
    requires entry { IsEntry (funs_of (program_tree checked.now.resolved.program.now).decls) entry }
    requires printable { HasText (resolved_setting checked.now.resolved) entry.fun back (reply_seen reply.now) }
    ensures { WroteReply K.taken K.faults output.old output.new result (resolved_setting checked.now.resolved) entry.fun back (reply_seen reply.now) }
{
    match reply {
        Reply::Ends(state) => print_state(state, checked, entry, last_side(back), output),
        Reply::Sticks { reason, at } => write_all(output, stuck_line(*reason, *at).as_bytes()),
    }
}

/// Writes replies, each after a separator.
fn write_following<K: Sink>(
    output: &mut K,
    checked: &Checked<'_>,
    entry: Entry,
    back: bool,
    replies: &[Reply],
) -> Result<(), WriteFault>
    requires entry { IsEntry (funs_of (program_tree checked.now.resolved.program.now).decls) entry }
    requires printable { AllByRecursion (HasText (resolved_setting checked.now.resolved) entry.fun back) (map reply_seen replies.now) }
    ensures { WroteFollowing K.taken K.faults output.old output.new result (resolved_setting checked.now.resolved) entry.fun back (map reply_seen replies.now) }
{
    for reply in replies {
        write_all(output, SEPARATOR)?;
        write_reply(output, checked, entry, back, reply)?;
    }
    Ok(())
}

/// Writes replies, with a separator between each and the next one.
pub fn write_replies<K: Sink>(
    output: &mut K,
    checked: &Checked<'_>,
    entry: Entry,
    back: bool,
    replies: &[Reply],
) -> Result<(), WriteFault>
    requires entry { IsEntry (funs_of (program_tree checked.now.resolved.program.now).decls) entry }
    requires printable { AllByRecursion (HasText (resolved_setting checked.now.resolved) entry.fun back) (map reply_seen replies.now) }
    ensures { WroteReplies K.taken K.faults output.old output.new result (resolved_setting checked.now.resolved) entry.fun back (map reply_seen replies.now) }
{
    let Some((first, following)) = replies.split_first() else {
        return Ok(());
    };
    write_reply(output, checked, entry, back, first)?;
    write_following(output, checked, entry, back, following)
}
