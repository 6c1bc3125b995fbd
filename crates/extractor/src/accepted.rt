// What three answers that the verifier accepted give.
ghost use Rattle.std.specs.Prelude.{◌≡◌, length};
ghost use Rattle.kinds.specs.Groups.{group_length};
ghost use Rattle.theory.specs.Extraction.{or_collision};
ghost use Rattle.theory.specs.Groups.{group_bytes};
ghost use Rattle.theory.specs.Tests.{differ};
ghost use Rattle.extractor.specs.Accepted.{compared, key_in, key_written};

use branches::bytes::first_difference;
use branches::groups::put_element;
use faults::Branch;
use kinds::kind::ElementKind;
use std::marker::Model;
use theory::Extracted;
use verifier::answer::Answer;
use verifier::view::OpenedView;

// The answers to picks 1, 2 and 3.
#[derive(Drop)]
pub(crate) struct Accepted<'a, K: ElementKind> {
    pub(crate) one: Answer<'a, K>,
    pub(crate) two: Answer<'a, K>,
    pub(crate) three: Answer<'a, K>,
}

impl<'a, K: ElementKind> Model for Accepted<'a, K> {
    ghost use Rattle.extractor.specs.Accepted.{Three, Alike};

    ghost Value = { Three };

    ghost view = { λ a. record { one_answer = a.one; two_answer = a.two; three_answer = a.three } };

    ghost invariant = { λ a. Alike a.one a.two a.three };
}

// What comes of a branch whose view has these copies: where they differ, or what the branches after it give.
fn or_collision<K: ElementKind>(
    branch: Branch,
    copy: &OpenedView<'_, K>,
    second: &OpenedView<'_, K>,
    after: Extracted,
) -> Extracted
    requires { length copy.now.bytes ≡ length second.now.bytes }
    ensures { result ≡ or_collision (differ copy.now.bytes second.now.bytes) branch after }
{
    match first_difference(copy.bytes(), second.bytes()) {
        Some(offset) => Extracted::Collision { branch, offset },
        None => after,
    }
}

impl<K: ElementKind> Accepted<'_, K> {
    // The lowest branch whose two copies differ, and where; if there is none, a key.
    fn compare(&self) -> Extracted
        ensures { result ≡ compared self.now }
    {
        let (one, two, three) = (&self.one, &self.two, &self.three);
        let last = or_collision(
            Branch::Three,
            three.picked(),
            two.following(),
            Extracted::Key,
        );
        let later = or_collision(Branch::Two, two.picked(), one.following(), last);
        or_collision(Branch::One, one.picked(), three.following(), later)
    }

    // Writes the sums of the shares in the views that the picks opened first.
    fn write_key(&self, key: &mut [u8])
        requires { length key.old ≡ group_length K.kind (length self.now.one_answer.picked.parts.wires) }
        ensures { key.new ≡ group_bytes K.kind (key_in K.kind self.now) }
    {
        let shares = self.one.picked().shares();
        let n = shares.len();
        let two = self.two.picked().shares().elements();
        let three = self.three.picked().shares().elements();
        for (i, ((a, b), c)) in shares.elements().zip(two).zip(three).enumerate() {
            put_element(key, n, i, a.sum(b).sum(c));
        }
    }

    // A key is written only where all copies agree.
    pub(crate) fn give(&self, key: &mut [u8]) -> Extracted
        requires { length key.old ≡ group_length K.kind (length self.now.one_answer.picked.parts.wires) }
        ensures outcome { result ≡ compared self.now }
        ensures key { key.new ≡ key_written result (group_bytes K.kind (key_in K.kind self.now)) key.old }
    {
        let found = self.compare();
        if let Extracted::Key = found {
            self.write_key(key);
        }
        found
    }
}
