//! The files of a command.

ghost use Rattle.std.specs.Prelude.{◌≡◌, ◌≤◌, ℕ, true, List, length, map, string_bytes, IfOk, IfErr};
ghost use Rattle.stp_report.specs.declared.answer.Answer.{Answer as TheAnswer};
ghost use Rattle.stp_cli.specs.Calls.{store_call};
ghost use Rattle.stp_cli.specs.Words.{named_of};
ghost use Rattle.stp_cli.specs.Texts.{no_texts, AreShort};
ghost use Rattle.stp_cli.specs.Loading.{IsStopped, AreLoaded, IsUnloaded};

use crate::texts::Texts;
use std::alloc::Global;
use stp_io::{LoadFault, Store, load};
use stp_report::FileName;

/// A file that was not loaded, and why.
#[derive(Clone, Copy, Debug, PartialEq, Eq)]
pub struct Unloaded {
    pub role: FileName,
    pub fault: LoadFault,
}

/// The texts of the files of these names, which are loaded in order.
pub fn load_all<S: Store>(
    alloc: Global,
    store: &mut S,
    roles: &[FileName],
    names: &[String],
) -> Result<Texts, Unloaded>
    requires { length roles.now ≡ length names.now }
    ensures loaded { IfOk result (λ texts. AreLoaded
        (store_call S.files S.steady S.faults store.old store.new)
        (named_of roles.now (map string_bytes names.now))
        no_texts
        texts) }
    ensures short { IfOk result AreShort }
    ensures stopped { IfErr result (λ u. (answer : TheAnswer) → IsUnloaded u.role u.fault answer → IsStopped
        (store_call S.files S.steady S.faults store.old store.new)
        (named_of roles.now (map string_bytes names.now))
        answer) }
    ensures files { S.files store.new ≡ S.files store.old }
    ensures steady { (n : List ℕ) → S.steady store.old n ≡ true → S.steady store.new n ≡ true }
    ensures counts { S.faults store.old ≤ S.faults store.new }
{
    let mut texts = Texts::new(alloc);
    for index in 0..names.len() {
        let role = roles[index];
        let name = names[index].as_str();
        match load(alloc, store, name) {
            Ok(text) => texts.put(role, text),
            Err(fault) => return Err(Unloaded { role, fault }),
        }
    }
    Ok(texts)
}
