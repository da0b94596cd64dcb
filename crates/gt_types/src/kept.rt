ghost use Rattle.gt_types.specs.Forms.{is_kept};
ghost use Rattle.gt_types.specs.Kept as spec;
ghost use Rattle.gt_types.specs.Kept.{bit_of, flag_of, kept_row, name_of, with_flag};
ghost use Rattle.std.specs.Prelude.{◌≡◌, ◌<◌, ◌*◌, true};

/// Six members of a document that have no effect, as bits 0 to 5: which were given, and which of those were true.
#[derive(Clone, Copy, Debug, PartialEq, Eq)]
pub struct Kept {
    pub given: u8,
    pub set: u8,
}

/// A member of a document that has no effect. It is kept, and printed as it was given.
#[derive(Clone, Copy, Debug, PartialEq, Eq)]
pub enum KeptMember {
    NotifyOnSucceeded,
    NotifyOnFailed,
    NotifyOnInactive,
    EncryptData,
    FailOnQuotaErrors,
    StoreBasePathInfo,
}

impl KeptMember {
    /// Its name in documents.
    pub fn name(self) -> &'static str
        ensures { result.now ≡ name_of self }
    {
        self.row().0
    }

    /// The value of its bit.
    pub fn bit(self) -> u8
        ensures { result ≡ bit_of self }
    {
        self.row().1
    }

    fn row(self) -> (&'static str, u8)
        ensures { (result.0.now, result.1) ≡ kept_row self }
    {
        match self {
            KeptMember::NotifyOnSucceeded => ("notify_on_succeeded", 1),
            KeptMember::NotifyOnFailed => ("notify_on_failed", 2),
            KeptMember::NotifyOnInactive => ("notify_on_inactive", 4),
            KeptMember::EncryptData => ("encrypt_data", 8),
            KeptMember::FailOnQuotaErrors => ("fail_on_quota_errors", 16),
            KeptMember::StoreBasePathInfo => ("store_base_path_info", 32),
        }
    }
}

impl Kept {
    /// No member was given.
    pub fn none() -> Kept
        ensures { result ≡ record { given = 0; set = 0 } }
    {
        Kept { given: 0, set: 0 }
    }

    /// What was given of the member, if anything was.
    pub fn flag(self, member: KeptMember) -> Option<bool>
        ensures { result ≡ flag_of self member }
    {
        let bit = member.bit();
        if self.given & bit == 0 {
            return None;
        }
        Some(self.set & bit != 0)
    }
    /// The same with what was given of one more member, whose bit is above those of the members before.
    pub fn with(self, member: KeptMember, flag: Option<bool>) -> Kept
        requires below { self.given < bit_of member }
        requires good { is_kept self ≡ true }
        ensures value { result ≡ with_flag self member flag }
        ensures below { result.given < 2 * bit_of member }
        ensures good { is_kept result ≡ true }
    {
        let bit = member.bit();
        Kept {
            given: self.given + bit_if(bit, flag.is_some()),
            set: self.set + bit_if(bit, flag.unwrap_or(false)),
        }
    }
}

/// The bit where the test holds, and otherwise nothing.
fn bit_if(bit: u8, holds: bool) -> u8
    ensures { result ≡ spec.bit_if bit holds }
{
    if holds { bit } else { 0 }
}
