//! The words that may stand where an instruction's name does.

ghost use Rattle.std.specs.Prelude.{◌≡◌};
ghost use Rattle.ia_insn.specs.Mnemonics.{stem};
ghost use Rattle.ia_insn.specs.Operations.{condition_name};
ghost use Rattle.ia_source.specs.Keywords.{find_named, condition_of, condition_behind, conditional, unconditional};
ghost use Rattle.ia_source.specs.Keywords.{mnemonic_named, order_of, reserved_of, keyword_of};

use crate::directive::{Directive, Keyword};
use ia_insn::{Mnemonic, condition_name, conditions, other_conditions};
use ia_lex::{find_word, is_word};
use ia_word::Condition;

static ORDERS: [(&str, Keyword); 10] = [
    ("lock", Keyword::Lock),
    ("section", Keyword::Directive(Directive::Section)),
    ("org", Keyword::Directive(Directive::Org)),
    ("bits", Keyword::Directive(Directive::Bits)),
    ("global", Keyword::Directive(Directive::Global)),
    ("db", Keyword::Directive(Directive::Db)),
    ("dd", Keyword::Directive(Directive::Dd)),
    ("resb", Keyword::Directive(Directive::Resb)),
    ("align", Keyword::Directive(Directive::Align)),
    ("equ", Keyword::Directive(Directive::Equ)),
];

// Prefixes that no instruction has here, and TIMES.
static PREFIXES: [(&str, Keyword); 15] = [
    ("rep", Keyword::Reserved),
    ("repe", Keyword::Reserved),
    ("repz", Keyword::Reserved),
    ("repne", Keyword::Reserved),
    ("repnz", Keyword::Reserved),
    ("xacquire", Keyword::Reserved),
    ("xrelease", Keyword::Reserved),
    ("bnd", Keyword::Reserved),
    ("nobnd", Keyword::Reserved),
    ("a16", Keyword::Reserved),
    ("a32", Keyword::Reserved),
    ("o16", Keyword::Reserved),
    ("o32", Keyword::Reserved),
    ("wait", Keyword::Reserved),
    ("times", Keyword::Reserved),
];

// Segment registers, registers of 16 bits, and sizes.
static REGISTERS_AND_SIZES: [(&str, Keyword); 18] = [
    ("es", Keyword::Reserved),
    ("cs", Keyword::Reserved),
    ("ss", Keyword::Reserved),
    ("ds", Keyword::Reserved),
    ("fs", Keyword::Reserved),
    ("gs", Keyword::Reserved),
    ("ax", Keyword::Reserved),
    ("cx", Keyword::Reserved),
    ("dx", Keyword::Reserved),
    ("bx", Keyword::Reserved),
    ("sp", Keyword::Reserved),
    ("bp", Keyword::Reserved),
    ("si", Keyword::Reserved),
    ("di", Keyword::Reserved),
    ("byte", Keyword::Reserved),
    ("word", Keyword::Reserved),
    ("dword", Keyword::Reserved),
    ("qword", Keyword::Reserved),
];

/// The condition among these whose printed name a word is.
#[tactic(auto, using(crate::proofs::Named::named_steps))]
fn find_condition(conditions: &[Condition], word: &[u8]) -> Option<Condition>
    ensures { result ≡ find_named condition_name conditions.now word.now }
{
    for (i, condition) in conditions.iter().enumerate() {
        if is_word(condition_name(*condition), word) {
            return Some(*condition);
        }
    }
    None
}

#[tactic(auto, unfolding(crate::specs::Keywords::condition_of))]
fn condition(word: &[u8]) -> Option<Condition>
    ensures { result ≡ condition_of word.now }
{
    match find_condition(conditions(), word) {
        Some(condition) => Some(condition),
        None => find_word(other_conditions(), word),
    }
}

/// The condition behind this front of a word.
fn condition_behind(front: &[u8], word: &[u8]) -> Option<Condition>
    ensures { result ≡ condition_behind front.now word.now }
{
    if word.len() < front.len() {
        return None;
    }
    if is_word(front, &word[..front.len()]) {
        condition(&word[front.len()..])
    } else {
        None
    }
}

#[tactic(auto, unfolding(crate::specs::Keywords::conditional))]
fn conditional(word: &[u8]) -> Option<Mnemonic>
    ensures { result ≡ conditional word.now }
{
    if let Some(condition) = condition_behind(b"j", word) {
        return Some(Mnemonic::Jcc(condition));
    }
    if let Some(condition) = condition_behind(b"set", word) {
        return Some(Mnemonic::Setcc(condition));
    }
    let condition = condition_behind(b"cmov", word)?;
    Some(Mnemonic::Cmovcc(condition))
}

/// The mnemonic among these, which have no condition, whose printed name a word is.
#[tactic(auto, using(crate::proofs::Named::named_steps))]
fn find_mnemonic(mnemonics: &[Mnemonic], word: &[u8]) -> Option<Mnemonic>
    ensures { result ≡ find_named stem mnemonics.now word.now }
{
    for (i, mnemonic) in mnemonics.iter().enumerate() {
        if is_word(mnemonic.stem(), word) {
            return Some(*mnemonic);
        }
    }
    None
}

#[tactic(auto, unfolding(crate::specs::Keywords::unconditional))]
fn unconditional(word: &[u8]) -> Option<Mnemonic>
    ensures { result ≡ unconditional word.now }
{
    if let Some(mnemonic) = find_mnemonic(Mnemonic::moves(), word) {
        return Some(mnemonic);
    }
    if let Some(mnemonic) = find_mnemonic(Mnemonic::arithmetic(), word) {
        return Some(mnemonic);
    }
    if let Some(mnemonic) = find_mnemonic(Mnemonic::jumps(), word) {
        return Some(mnemonic);
    }
    find_mnemonic(Mnemonic::bare_names(), word)
}

/// The instruction that a word names.
#[tactic(auto, unfolding(crate::specs::Keywords::mnemonic_named))]
fn mnemonic(word: &[u8]) -> Option<Mnemonic>
    ensures { result ≡ mnemonic_named word.now }
{
    if let Some(mnemonic) = unconditional(word) {
        return Some(mnemonic);
    }
    if let Some(mnemonic) = conditional(word) {
        return Some(mnemonic);
    }
    find_word(Mnemonic::other_names(), word)
}

/// What a word is that NASM keeps for itself.
#[tactic(auto, unfolding(crate::specs::Keywords::reserved_of))]
fn reserved(word: &[u8]) -> Option<Keyword>
    ensures { result ≡ reserved_of word.now }
{
    match find_word(&PREFIXES, word) {
        Some(found) => Some(found),
        None => find_word(&REGISTERS_AND_SIZES, word),
    }
}

#[tactic(auto, unfolding(crate::specs::Keywords::order_of))]
fn order(word: &[u8]) -> Option<Keyword>
    ensures { result ≡ order_of word.now }
{
    match find_word(&ORDERS, word) {
        Some(found) => Some(found),
        None => reserved(word),
    }
}

/// What a word is where an instruction's name may stand.
#[tactic(auto, unfolding(crate::specs::Keywords::keyword_of))]
pub fn keyword(word: &[u8]) -> Option<Keyword>
    ensures { result ≡ keyword_of word.now }
{
    match mnemonic(word) {
        Some(name) => Some(Keyword::Mnemonic(name)),
        None => order(word),
    }
}
