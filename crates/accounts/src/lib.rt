// Accounts, groups and roles: numbers that name separate things even when they are equal.
#![tactic(auto)]

ghost use Rattle.std.specs.Prelude.{◌≡◌, true, false, ◌<◌};
ghost use Rattle.accounts.specs.Groups.{member, no_groups, with_group};
ghost use Rattle.accounts.specs.Access.{is_root, grants, may};
ghost use Rattle.accounts.specs.Session.{nobody, as_role};
ghost use Rattle.accounts.specs.Closure.{has_role, own_rows, grown_row, grown_rows, row_dominates, row_account, session_dominates};

// An account: root is 0, persons are 1 to 15, the service account of role r is 16 + r.
#[derive(Clone, Copy, PartialEq, Eq, Debug)]
pub struct Uid(pub u8);

// A group: root's is 0, persons' are 1 to 15, the service group of role r is 16 + r, and 24 holds all service accounts.
#[derive(Clone, Copy, PartialEq, Eq, Debug)]
pub struct Gid(pub u8);

// A role, 0 to 7.
#[derive(Clone, Copy, PartialEq, Eq, Debug)]
pub struct Role(pub u8);

// A set of groups: bit g is set where group g is a member.
#[derive(Clone, Copy, PartialEq, Eq, Debug)]
pub struct Groups(pub u32);

// An account with the groups it is in.
#[derive(Clone, Copy, PartialEq, Eq, Debug)]
pub struct Account {
    pub uid: Uid,
    pub groups: Groups,
}

// Who calls: an account with its primary group, which is among the account's groups.
#[derive(Clone, Copy, PartialEq, Eq, Debug)]
pub struct Caller {
    pub account: Account,
    pub primary: Gid,
}

// `r,senior,junior` of the setup: the senior role dominates the junior.
#[derive(Clone, Copy, PartialEq, Eq, Debug)]
pub struct Pair {
    pub senior: Role,
    pub junior: Role,
}

// What an access test asks for: reading, writing, or search of a directory (x).
#[derive(Clone, Copy, PartialEq, Eq, Debug)]
pub enum Right {
    R,
    W,
    X,
}

// Which roles dominate which: bit r of row s is set where role s dominates role r.
#[derive(Clone, Copy, PartialEq, Eq, Debug)]
pub struct Dominance {
    pub rows: [u8; 8],
}

// One role or none for an account.
#[derive(Clone, Copy, PartialEq, Eq, Debug)]
pub struct Session(pub Option<Role>);

impl Groups {
    // The empty set.
    pub fn empty() -> Self
        ensures { result ≡ no_groups }
    {
        Groups(0)
    }

    // The set with one group more.
    #[tactic(auto, using(crate::proofs::Bits::one_shifted), unfolding(crate::specs::Groups::with_group))]
    pub fn with(self, g: Gid) -> Self
        requires { g.0 < 32 }
        ensures { result ≡ with_group g self }
    {
        Groups(self.0 | 1 << g.0)
    }

    // Whether a group is in the set; none from 32 on is.
    pub fn has(self, g: Gid) -> bool
        ensures { result ≡ member g self }
    {
        if 32 <= g.0 {
            return false;
        }
        (self.0 >> g.0) % 2 == 1
    }
}

impl Uid {
    // Whether it is root's.
    pub fn is_root(self) -> bool
        ensures { result ≡ is_root self }
    {
        self.0 == 0
    }
}

impl Right {
    // Whether an octal digit of a mode has the right's bit.
    pub fn in_digit(self, digit: u16) -> bool
        ensures { result ≡ grants digit self }
    {
        match self {
            Right::R => digit / 4 % 2 == 1,
            Right::W => digit / 2 % 2 == 1,
            Right::X => digit % 2 == 1,
        }
    }
}

impl Account {
    // Whether the account may: the owner is judged by the owner's digit alone, else a member of the group by the group's
    // alone, else by the others'. Root passes every test.
    pub fn may(self, right: Right, owner: Uid, group: Gid, mode: u16) -> bool
        ensures { result ≡ may self right owner group mode }
    {
        if self.uid.is_root() {
            return true;
        }
        if self.uid == owner {
            return right.in_digit(mode / 64 % 8);
        }
        if self.groups.has(group) {
            return right.in_digit(mode / 8 % 8);
        }
        right.in_digit(mode % 8)
    }
}

// Whether a row has a role's bit; none from 8 on has.
fn has_role(row: u8, role: Role) -> bool
    ensures { result ≡ has_role row role }
{
    role.0 < 8 && (row >> role.0) % 2 == 1
}

// A row that has the senior takes what the junior's row has.
fn grown_row(row: u8, senior: Role, add: u8) -> u8
    ensures { result ≡ grown_row senior add row }
{
    if has_role(row, senior) {
        return row | add;
    }
    row
}

impl Dominance {
    // Without pairs each role dominates itself alone.
    pub fn own() -> Self
        ensures { result.rows ≡ own_rows }
    {
        Dominance {
            rows: [1, 2, 4, 8, 16, 32, 64, 128],
        }
    }

    // One pair more: every role that dominates the senior dominates what the junior does.
    pub fn with(self, pair: Pair) -> Self
        ensures { result.rows ≡ grown_rows pair self.rows }
    {
        let Some(&add) = self.rows.get(pair.junior.0 as usize) else {
            return self;
        };
        let mut rows = self.rows;
        for row in &mut rows {
            *row = grown_row(*row, pair.senior, add);
        }
        Dominance { rows }
    }

    // Whether a role dominates another.
    pub fn dominates(self, s: Role, r: Role) -> bool
        ensures { result ≡ row_dominates self.rows s r }
    {
        match self.rows.get(s.0 as usize) {
            Some(&row) => has_role(row, r),
            None => false,
        }
    }

    // The service account of a role: 16 + z, in group 24 and in the groups of the roles that z dominates.
    pub fn account(self, z: Role) -> Account
        requires { z.0 < 8 }
        ensures { result ≡ row_account self.rows z }
    {
        let row = self.rows[z.0 as usize];
        Account {
            uid: Uid(16 + z.0),
            groups: Groups(16777216 + 65536 * u32::from(row)),
        }
    }
}

impl Session {
    // A new role replaces the session.
    pub fn log_in(self, role: Role) -> Self
        ensures { result ≡ as_role role }
    {
        Session(Some(role))
    }

    // The session becomes none.
    pub fn log_out(self) -> Self
        ensures { result ≡ nobody }
    {
        Session(None)
    }

    // Whether the session's role dominates a role; without a session none is dominated.
    pub fn dominates(self, d: Dominance, role: Role) -> bool
        ensures { result ≡ session_dominates self d.rows role }
    {
        match self.0 {
            Some(own) => d.dominates(own, role),
            None => false,
        }
    }
}
