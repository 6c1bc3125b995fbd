// The lengths of what belongs to a lock.
ghost use Rattle.std.specs.Prelude.{◌≡◌};
ghost use Rattle.locks.specs.Lengths.{key_length, view_length, tape_length, first_length, answer_length, work_length};

use super::Lock;
use crate::lengths;
use crate::lengths::group_length;
use kinds::kind::ElementKind;

impl Lock<'_> {
    pub fn key_length<K: ElementKind>(&self) -> usize
        ensures { result ≡ key_length K.kind self.now.inputs }
    {
        group_length::<K>(self.inputs as usize)
    }

    pub fn view_length<K: ElementKind>(&self) -> usize
        ensures { result ≡ view_length K.kind self.now.inputs self.now.products }
    {
        lengths::view_length::<K>(self.inputs as usize, self.products as usize)
    }

    pub fn tape_length<K: ElementKind>(&self) -> usize
        ensures { result ≡ tape_length K.kind self.now.inputs self.now.products }
    {
        96 + 2 * group_length::<K>(self.inputs as usize)
            + 3 * group_length::<K>(self.products as usize)
    }

    // With seals of `seal` bytes.
    pub fn first_length<K: ElementKind>(&self, seal: u8) -> usize
        ensures { result ≡ first_length K.kind self.now.outputs seal }
    {
        2 + 3 * group_length::<K>(self.outputs as usize) + 3 * seal as usize
    }

    pub fn answer_length<K: ElementKind>(&self) -> usize
        ensures { result ≡ answer_length K.kind self.now.inputs self.now.products }
    {
        3 + 2 * lengths::view_length::<K>(self.inputs as usize, self.products as usize)
    }

    pub fn work_length<K: ElementKind>(&self) -> usize
        ensures { result ≡ work_length K.kind self.now.inputs self.now.gates }
    {
        group_length::<K>(self.inputs as usize + self.gates as usize)
    }
}
