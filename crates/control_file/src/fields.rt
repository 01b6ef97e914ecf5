// Fields of bytes, one after the other.
ghost use Rattle.std.specs.Prelude.{◌≡◌, ◌==◌, ◌≤◌, ◌<◌, nat_le, length, IfOk};
ghost use Rattle.std.specs.Int.{w16, w32, w64};
ghost use Rattle.dl_kinds.specs.Answers.{Gives};

use crate::ControlErr;
use bit_rows::BitRow;

/// How the bytes of a number are ordered: `Big` in version 1, `Little` in version 0.
#[derive(Clone, Copy, Debug, PartialEq, Eq)]
pub enum ByteOrder {
    Big,
    Little,
}

/// Bytes of which those before `at` were read.
#[derive(Debug, Drop)]
pub(crate) struct Fields<'a> {
    pub(crate) bytes: &'a [u8],
    pub(crate) at: usize,
    ghost within: { at ≤ length bytes.now },
}

impl<'a> Fields<'a> {
    ghost use Rattle.control_file.specs.Unread.{unread};
    ghost use Rattle.control_file.specs.Reading.{control_fault, may_be_in_flight, bytes_at, number_at, field_at};
    ghost use Rattle.control_file.specs.declared.fields.ByteOrder.TheVariants.{Big};

    /// The next bytes, so many.
    pub(crate) fn take(&mut self, len: usize) -> Result<&'a [u8], ControlErr>
        ensures { Gives (λ bytes. (bytes.now, unread self.new)) control_fault result
            (bytes_at len (unread self.old)) }
    {
        if self.bytes.len() - self.at < len {
            return Err(ControlErr::Wrong { at: self.at as u64 });
        }
        let rest = &self.bytes[self.at..];
        self.at += len;
        Ok(&rest[..len])
    }

    #[tactic(auto, unfolding(crate::specs::Reading::number_at))]
    pub(crate) fn u16(&mut self) -> Result<u16, ControlErr>
        ensures { Gives (λ n. (n, unread self.new)) control_fault result
            (number_at Big w16 (unread self.old)) }
    {
        let bytes = self.take(2)?;
        Ok(u16::from_be_bytes([bytes[0], bytes[1]]))
    }

    #[tactic(auto, unfolding(crate::specs::Reading::number_at))]
    pub(crate) fn u32(&mut self, order: ByteOrder) -> Result<u32, ControlErr>
        ensures { Gives (λ n. (n, unread self.new)) control_fault result
            (number_at order w32 (unread self.old)) }
    {
        let bytes = self.take(4)?;
        let bytes = [bytes[0], bytes[1], bytes[2], bytes[3]];
        match order {
            ByteOrder::Big => Ok(u32::from_be_bytes(bytes)),
            ByteOrder::Little => Ok(u32::from_le_bytes(bytes)),
        }
    }

    #[tactic(auto, unfolding(crate::specs::Reading::number_at))]
    pub(crate) fn u64(&mut self, order: ByteOrder) -> Result<u64, ControlErr>
        ensures { Gives (λ n. (n, unread self.new)) control_fault result
            (number_at order w64 (unread self.old)) }
    {
        let b = self.take(8)?;
        let bytes = [b[0], b[1], b[2], b[3], b[4], b[5], b[6], b[7]];
        match order {
            ByteOrder::Big => Ok(u64::from_be_bytes(bytes)),
            ByteOrder::Little => Ok(u64::from_le_bytes(bytes)),
        }
    }

    /// The number of this field, which has to be this one.
    #[tactic(auto, unfolding(crate::specs::Reading::field_at))]
    pub(crate) fn exactly(&mut self, order: ByteOrder, wanted: u32) -> Result<u32, ControlErr>
        ensures exact { Gives (λ n. (n, unread self.new)) control_fault result
            (field_at order w32 (λ n. n == wanted) (unread self.old)) }
        ensures value { IfOk result (λ n. n ≡ wanted) }
    {
        let at = self.at;
        let number = self.u32(order)?;
        if number != wanted {
            return Err(ControlErr::Wrong { at: at as u64 });
        }
        Ok(number)
    }

    /// The number of this field, which may be this one at most.
    #[tactic(auto, unfolding(crate::specs::Reading::field_at))]
    pub(crate) fn at_most(&mut self, order: ByteOrder, most: u32) -> Result<u32, ControlErr>
        ensures exact { Gives (λ n. (n, unread self.new)) control_fault result
            (field_at order w32 (λ n. nat_le n most) (unread self.old)) }
        ensures bound { IfOk result (λ n. n ≤ most) }
    {
        let at = self.at;
        let number = self.u32(order)?;
        if number > most {
            return Err(ControlErr::Wrong { at: at as u64 });
        }
        Ok(number)
    }

    /// The number of this field, which has to be the place of a false in this row.
    #[tactic(auto, using(crate::proofs::Taken::past_is_taken, crate::proofs::Taken::true_is_taken, crate::proofs::Taken::false_is_open), unfolding(crate::specs::Reading::field_at))]
    pub(crate) fn open_in(&mut self, order: ByteOrder, taken: &BitRow) -> Result<u32, ControlErr>
        ensures exact { Gives (λ n. (n, unread self.new)) control_fault result
            (field_at order w32 (may_be_in_flight taken.now) (unread self.old)) }
        ensures within { IfOk result (λ n. n < length taken.now) }
    {
        let at = self.at;
        let number = self.u32(order)?;
        if number >= taken.len() || taken.get(number) {
            return Err(ControlErr::Wrong { at: at as u64 });
        }
        Ok(number)
    }
}
