ghost use Rattle.std.specs.Prelude.{◌≡◌, List};
ghost use Rattle.member_set.specs.declared.members.Member.{Member};
ghost use Rattle.member_pairs.specs.Members.{member_list};

use member_set::Member;
use std::marker::Model;

/// The members of an element, in order: a straight has eight, a bend six.
#[derive(Drop)]
pub struct ElementMembers {
    array: MemberArray,
}

#[derive(Drop)]
pub enum MemberArray {
    Six([Member; 6]),
    Eight([Member; 8]),
}

impl Model for ElementMembers {
    ghost Value = { List Member };

    ghost view = { λ m. member_list m.array };
}

impl ElementMembers {
    pub fn six(members: [Member; 6]) -> Self
        ensures { result ≡ members }
    {
        ElementMembers {
            array: MemberArray::Six(members),
        }
    }

    pub fn eight(members: [Member; 8]) -> Self
        ensures { result ≡ members }
    {
        ElementMembers {
            array: MemberArray::Eight(members),
        }
    }

    /// The members as a slice.
    pub fn as_slice(&self) -> &[Member]
        ensures { result.now ≡ self.now }
    {
        match &self.array {
            MemberArray::Six(members) => members,
            MemberArray::Eight(members) => members,
        }
    }
}
