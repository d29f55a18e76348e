//! The top call.

ghost use Rattle.std.specs.Prelude.{◌≡◌, ◌≤◌, ℕ, true, List, length, map, string_bytes, Ok, Err, IfOk, IfErr};
ghost use Rattle.stp_cli.specs.Calls.{store_call, sink_call};
ghost use Rattle.stp_cli.specs.Named.{plain_command};
ghost use Rattle.stp_cli.specs.Words.{command_of, roles_of, IsSized};
ghost use Rattle.stp_cli.specs.Loading.{IsUnloaded};
ghost use Rattle.stp_cli.specs.Replies.{IsReply};
ghost use Rattle.stp_cli.specs.Outcome.{IsAllowedTo, IsAllowed, IsOutcome};
ghost use Rattle.stp_cli.specs.Headline.{IsHeadlineOf, IsPlanHeadlineOf, IsDemoHeadlineOf, IsComplete};

use crate::judge::judge;
use crate::loading::{Unloaded, load_all};
use crate::reply::{Reply, reply_with};
use crate::status::Status;
use crate::words::{Command, read_words, roles_of};
use std::alloc::Global;
use stp_base::Memory;
use stp_base::limits::MAX_FILE_BYTES;
use stp_io::{LoadFault, Sink, Store, write_all};
use stp_refusal::Code;
use stp_report::Answer;

/// What is answered where a file was not loaded.
fn unloaded_answer(unloaded: Unloaded) -> Result<Answer<'static, 'static>, Memory>
    ensures answer { IfOk result (IsUnloaded unloaded.role unloaded.fault) }
    ensures memory { IfErr result (λ _. unloaded.fault ≡ LoadFault.Memory) }
{
    let Unloaded { role, fault } = unloaded;
    match fault {
        LoadFault::ReadFault => Ok(Answer::ReadFault(role)),
        LoadFault::TooLong => Ok(Answer::Refused {
            file: role,
            code: Code::F01,
            at: MAX_FILE_BYTES as u32,
        }),
        LoadFault::Memory => Err(Memory),
    }
}

/// The reply where a file was not loaded.
fn reply_unloaded(alloc: Global, unloaded: Unloaded) -> Result<Reply, Memory>
    ensures { IfOk result (λ r. IsReply (IsUnloaded unloaded.role unloaded.fault) r.status r.text) }
{
    match unloaded_answer(unloaded) {
        Ok(answer) => reply_with(alloc, &answer),
        Err(fault) => Err(fault),
    }
}

/// The reply to a command on the files that it names.
fn reply_to<S: Store>(alloc: Global, command: &Command<'_>, store: &mut S) -> Result<Reply, Memory>
    requires complete { length command.now.names.now ≡ length (roles_of command.now.work) }
    requires sized { IsSized command.now.work }
    ensures reply { IfOk result (λ r. IsReply
        (IsAllowedTo (store_call S.files S.steady S.faults store.old store.new) (plain_command command.now))
        r.status
        r.text) }
    ensures files { S.files store.new ≡ S.files store.old }
    ensures steady { (n : List ℕ) → S.steady store.old n ≡ true → S.steady store.new n ≡ true }
    ensures counts { S.faults store.old ≤ S.faults store.new }
{
    let texts = match load_all(alloc, store, roles_of(command.work), command.names) {
        Ok(texts) => texts,
        Err(unloaded) => return reply_unloaded(alloc, unloaded),
    };
    judge(alloc, command.work, command.list, &texts)
}

/// The reply to a list of words.
fn reply_to_words<S: Store>(alloc: Global, words: &[String], store: &mut S) -> Result<Reply, Memory>
    ensures reply { IfOk result (λ r. IsReply
        (IsAllowed
        (store_call S.files S.steady S.faults store.old store.new)
        (command_of (map string_bytes words.now)))
        r.status
        r.text) }
    ensures files { S.files store.new ≡ S.files store.old }
    ensures steady { (n : List ℕ) → S.steady store.old n ≡ true → S.steady store.new n ≡ true }
    ensures counts { S.faults store.old ≤ S.faults store.new }
{
    match read_words(words) {
        Some(command) => reply_to(alloc, &command, store),
        None => reply_with(alloc, &Answer::Usage),
    }
}

/// Answers a list of words: reads the files from the store, and writes the answer to the sink.
fn answer_words<S: Store, K: Sink>(
    alloc: Global,
    words: &[String],
    store: &mut S,
    sink: &mut K,
) -> Status
    ensures outcome { IsOutcome
        (store_call S.files S.steady S.faults store.old store.new)
        (sink_call K.written K.faults sink.old sink.new)
        (map string_bytes words.now)
        result }
    ensures files { S.files store.new ≡ S.files store.old }
    ensures steady { (n : List ℕ) → S.steady store.old n ≡ true → S.steady store.new n ≡ true }
    ensures counts { (S.faults store.old ≤ S.faults store.new) × (K.faults sink.old ≤ K.faults sink.new) }
{
    let Ok(reply) = reply_to_words(alloc, words, store) else {
        return Status::Memory;
    };
    match write_all(sink, reply.text.as_slice()) {
        Ok(()) => reply.status,
        Err(_) => Status::OutsideFault,
    }
}

/// Does what the words ask for: reads the files from the store, and writes the answer to the sink.
pub fn run<S: Store, K: Sink>(
    alloc: Global,
    words: &[String],
    store: &mut S,
    sink: &mut K,
) -> Status
    ensures outcome { IsOutcome
        (store_call S.files S.steady S.faults store.old store.new)
        (sink_call K.written K.faults sink.old sink.new)
        (map string_bytes words.now)
        result }
    ensures headline { IsHeadlineOf
        (store_call S.files S.steady S.faults store.old store.new)
        (sink_call K.written K.faults sink.old sink.new)
        (map string_bytes words.now)
        result }
    ensures plan_headline { IsPlanHeadlineOf
        (store_call S.files S.steady S.faults store.old store.new)
        (sink_call K.written K.faults sink.old sink.new)
        (map string_bytes words.now)
        result }
    ensures demo_headline { IsDemoHeadlineOf
        (sink_call K.written K.faults sink.old sink.new)
        (map string_bytes words.now)
        result }
    ensures complete { IsComplete
        (store_call S.files S.steady S.faults store.old store.new)
        (sink_call K.written K.faults sink.old sink.new)
        (map string_bytes words.now)
        result }
    ensures files { S.files store.new ≡ S.files store.old }
    ensures steady { (n : List ℕ) → S.steady store.old n ≡ true → S.steady store.new n ≡ true }
    ensures counts { (S.faults store.old ≤ S.faults store.new) × (K.faults sink.old ≤ K.faults sink.new) }
{
    answer_words(alloc, words, store, sink)
}
