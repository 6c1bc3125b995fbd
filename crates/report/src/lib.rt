// The text that tells of a lock: what it is, or why it is refused.
#![tactic(auto)]

ghost use Rattle.std.specs.Prelude.{◌≡◌, ◌++◌, IfOk, string_bytes};
ghost use Rattle.faults.specs.Outcomes.{map_ok};
ghost use Rattle.locks.specs.Reading.{lock_of};
ghost use Rattle.locks.specs.Locks.{summary, summary_of};
ghost use Rattle.report.specs.Texts.{counts_line, lengths_line, refused_line, text_of, report_of};

use faults::Fault;
use kinds::bit::Bit;
use kinds::kind::ElementKind;
use kinds::name::KindName;
use kinds::residue::Residue;
use kinds::word::Word;
use locks::lock::Lock;
use locks::lock::whole::read_lock;
use std::alloc::{AllocError, Global};

// The lengths are told for seals of so many bytes.
const SEAL_LENGTH: u8 = 32;

fn counts_line<K: ElementKind>(heap: Global, lock: &Lock<'_>) -> Result<String, AllocError>
    ensures { IfOk result (λ t. string_bytes t ≡ counts_line K.kind (summary_of lock.now)) }
{
    let number = K::NUMBER;
    let inputs = lock.inputs;
    let gates = lock.gates;
    let outputs = lock.outputs;
    format!(in heap; "kind {number} inputs {inputs} gates {gates} outputs {outputs}\n")
}

fn lengths_line<K: ElementKind>(heap: Global, lock: &Lock<'_>) -> Result<String, AllocError>
    ensures { IfOk result (λ t. string_bytes t ≡ lengths_line K.kind (summary_of lock.now)) }
{
    let products = lock.products;
    let view = lock.view_length::<K>();
    let tape = lock.tape_length::<K>();
    let first = lock.first_length::<K>(SEAL_LENGTH);
    let answer = lock.answer_length::<K>();
    format!(in heap; "products {products} row {view} tape {tape} first {first} answer {answer}\n")
}

fn accepted<K: ElementKind>(heap: Global, lock: &Lock<'_>) -> Result<String, AllocError>
    ensures { IfOk result (λ t. string_bytes t ≡ counts_line K.kind (summary_of lock.now) ++ lengths_line K.kind (summary_of lock.now)) }
{
    let mut text = counts_line::<K>(heap, lock)?;
    let lengths = lengths_line::<K>(heap, lock)?;
    text.push_str(lengths.as_str())?;
    Ok(text)
}

fn refused(heap: Global, fault: Fault) -> Result<String, AllocError>
    ensures { IfOk result (λ t. string_bytes t ≡ refused_line fault) }
{
    format!(in heap; "{fault}\n")
}

fn report_as<K: ElementKind>(heap: Global, bytes: &[u8]) -> Result<String, AllocError>
    ensures { IfOk result (λ t. string_bytes t ≡ text_of K.kind (map_ok summary (lock_of K.kind bytes.now))) }
{
    match read_lock::<K>(bytes) {
        Ok(lock) => accepted::<K>(heap, &lock),
        Err(fault) => refused(heap, fault),
    }
}

// Two lines for a lock, one for bytes that are refused; a kind number that no kind has is refused like a wrong one.
pub fn report(heap: Global, bytes: &[u8]) -> Result<String, AllocError>
    ensures { IfOk result (λ t. string_bytes t ≡ report_of bytes.now) }
{
    let name = bytes
        .get(2)
        .and_then(|number| KindName::try_from(*number).ok());
    match name.unwrap_or(KindName::Word) {
        KindName::Bit => report_as::<Bit>(heap, bytes),
        KindName::Word => report_as::<Word>(heap, bytes),
        KindName::Residue => report_as::<Residue>(heap, bytes),
    }
}
