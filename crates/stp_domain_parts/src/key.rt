//! The words that sections and their values begin with.

ghost use Rattle.std.specs.Prelude.{◌≡◌};
ghost use Rattle.stp_domain_parts.specs.Keys.{is_unsupported, action_kind, part_key, section_key, value_key, simple_key, durative_key, problem_key};

/// A section that a domain has once at most.
#[derive(Clone, Copy, Debug, PartialEq, Eq)]
pub enum PartKey {
    Requirements,
    Types,
    Constants,
    Predicates,
    Functions,
}

/// Whether an action takes time.
#[derive(Clone, Copy, Debug, PartialEq, Eq)]
pub enum ActionKind {
    Simple,
    Durative,
}

/// What a word begins in a domain.
#[derive(Clone, Copy, Debug, PartialEq, Eq)]
pub enum SectionKey {
    Part(PartKey),
    Action(ActionKind),
    /// A section of the standard that this program leaves out.
    Unsupported,
    Unknown,
}

/// What a key of an action names.
#[derive(Clone, Copy, Debug, PartialEq, Eq)]
pub enum ValueKey {
    Parameters,
    Condition,
    Effect,
    Duration,
    UncontrollableDuration,
}

/// A section of a problem.
#[derive(Clone, Copy, Debug, PartialEq, Eq)]
pub enum ProblemKey {
    Domain,
    Requirements,
    Metric,
    Objects,
    Init,
    Goal,
}

/// Whether a word begins a section of the standard that this program leaves out.
fn is_unsupported(text: &[u8]) -> bool
    ensures { result ≡ is_unsupported text.now }
{
    text == b":derived".as_slice()
        || text == b":constraints".as_slice()
        || text == b":process".as_slice()
        || text == b":event".as_slice()
}

/// The section of a domain that a word begins, other than an action.
fn part_key(text: &[u8]) -> Option<PartKey>
    ensures { result ≡ part_key text.now }
{
    if text == b":requirements".as_slice() {
        return Some(PartKey::Requirements);
    }
    if text == b":types".as_slice() {
        return Some(PartKey::Types);
    }
    if text == b":constants".as_slice() {
        return Some(PartKey::Constants);
    }
    if text == b":predicates".as_slice() {
        return Some(PartKey::Predicates);
    }
    if text == b":functions".as_slice() {
        return Some(PartKey::Functions);
    }
    None
}

/// The kind of action that a word begins.
fn action_kind(text: &[u8]) -> Option<ActionKind>
    ensures { result ≡ action_kind text.now }
{
    if text == b":action".as_slice() {
        return Some(ActionKind::Simple);
    }
    if text == b":durative-action".as_slice() {
        return Some(ActionKind::Durative);
    }
    None
}

/// What a word begins in a domain.
pub fn section_key(text: &[u8]) -> SectionKey
    ensures { result ≡ section_key text.now }
{
    if let Some(key) = part_key(text) {
        return SectionKey::Part(key);
    }
    if let Some(kind) = action_kind(text) {
        return SectionKey::Action(kind);
    }
    if is_unsupported(text) {
        return SectionKey::Unsupported;
    }
    SectionKey::Unknown
}

/// What a key of a simple action names.
fn simple_key(text: &[u8]) -> Option<ValueKey>
    ensures { result ≡ simple_key text.now }
{
    if text == b":precondition".as_slice() {
        return Some(ValueKey::Condition);
    }
    None
}

/// What a key of a durative action names.
fn durative_key(text: &[u8]) -> Option<ValueKey>
    ensures { result ≡ durative_key text.now }
{
    if text == b":condition".as_slice() {
        return Some(ValueKey::Condition);
    }
    if text == b":duration".as_slice() {
        return Some(ValueKey::Duration);
    }
    if text == b":uncontrollable-duration".as_slice() {
        return Some(ValueKey::UncontrollableDuration);
    }
    None
}

/// What a key of an action of this kind names.
pub fn value_key(kind: ActionKind, text: &[u8]) -> Option<ValueKey>
    ensures { result ≡ value_key kind text.now }
{
    if text == b":parameters".as_slice() {
        return Some(ValueKey::Parameters);
    }
    if text == b":effect".as_slice() {
        return Some(ValueKey::Effect);
    }
    match kind {
        ActionKind::Simple => simple_key(text),
        ActionKind::Durative => durative_key(text),
    }
}

/// The section of a problem that a word begins.
pub fn problem_key(text: &[u8]) -> Option<ProblemKey>
    ensures { result ≡ problem_key text.now }
{
    if text == b":domain".as_slice() {
        return Some(ProblemKey::Domain);
    }
    if text == b":requirements".as_slice() {
        return Some(ProblemKey::Requirements);
    }
    if text == b":metric".as_slice() {
        return Some(ProblemKey::Metric);
    }
    if text == b":objects".as_slice() {
        return Some(ProblemKey::Objects);
    }
    if text == b":init".as_slice() {
        return Some(ProblemKey::Init);
    }
    if text == b":goal".as_slice() {
        return Some(ProblemKey::Goal);
    }
    None
}
