// One line of a setup text, read into the header of the store that the setup makes.
ghost use Rattle.std.specs.Prelude.{◌≡◌, ◌||◌, ◌≤◌, ◌<◌, length};
ghost use Rattle.accounts.specs.Access.{is_root};
ghost use Rattle.syntax.specs.Form.{is_some};
ghost use Rattle.lines.specs.SetupLines.{p_line, g_line, r_line, l_line};
ghost use Rattle.setup.specs.Setup.{person, accept};
ghost use Rattle.setup.specs.SetupStep.{fitting, setup_step};
ghost use Rattle.store.specs.HeaderLayout.{password_width};
ghost use Rattle.store.specs.StoreBytes.{setup_of};
ghost use Rattle.store.specs.SetupHeader.{reading_in};
ghost use Rattle.setups.specs.LineRead.{Begun, read_as, after_line};

use crate::LineRead;
use crate::header_values::{write_grant, write_pair, write_slot};
use accounts::{Gid, Groups, Pair, Role, Uid};
use buffers::{number, same};
use lines::{SetupLine, line_at};
use store::{GRANT, GRANTS, PAIR, PAIRS, Person, SLOT};

// A person who has no slot yet.
fn name_person(header: &mut [u8], kind: u8, uid: Uid, gid: Gid) -> Option<LineRead>
    requires begun { Begun header.old }
    requires uid_bound { uid.0 < 16 }
    requires gid_nonzero { 0 < gid.0 }
    requires gid_bound { gid.0 < 16 }
    ensures { read_as result header.new ≡ after_line header.old (fitting (accept (p_line uid gid) (reading_in kind header.old))) }
{
    if 0 < kind {
        return None;
    }
    let at = SLOT * uid.0 as usize;
    if header[at] != 0 {
        return None;
    }
    let person = Person {
        primary: gid,
        further: Groups(0),
    };
    write_slot(header, at, person);
    Some(LineRead::More(0))
}

// A further group of a person.
fn join_group(header: &mut [u8], kind: u8, uid: Uid, gid: Gid) -> Option<LineRead>
    requires begun { Begun header.old }
    requires uid_bound { uid.0 < 16 }
    requires gid_nonzero { 0 < gid.0 }
    requires gid_bound { gid.0 < 16 }
    ensures { read_as result header.new ≡ after_line header.old (fitting (accept (g_line uid gid) (reading_in kind header.old))) }
{
    if 1 < kind {
        return None;
    }
    let at = SLOT * uid.0 as usize;
    let primary = Gid(header[at]);
    if primary.0 == 0 {
        return None;
    }
    let further = Groups(number(header, at + 1) as u32).with(gid);
    write_slot(header, at, Person { primary, further });
    Some(LineRead::More(1))
}

// A role pair behind the others.
fn add_pair(header: &mut [u8], kind: u8, senior: Role, junior: Role) -> Option<LineRead>
    requires { Begun header.old }
    ensures { read_as result header.new ≡ after_line header.old (fitting (accept (r_line senior junior) (reading_in kind header.old))) }
{
    if 2 < kind {
        return None;
    }
    if junior.0 <= senior.0 {
        return None;
    }
    let n = header[PAIRS];
    if 28 <= n {
        return None;
    }
    write_pair(
        header,
        PAIRS + 1 + PAIR * n as usize,
        Pair { senior, junior },
    );
    header[PAIRS] = n + 1;
    Some(LineRead::More(2))
}

// Whether an account is root's or a person's.
fn is_known(header: &[u8], uid: Uid) -> bool
    requires begun { Begun header.now }
    requires uid_bound { uid.0 < 16 }
    ensures { result ≡ (is_root uid || is_some (person (setup_of header.now) uid)) }
{
    if uid.0 == 0 {
        return true;
    }
    let at = SLOT * uid.0 as usize;
    header[at] != 0
}

// A login grant behind the others.
fn add_grant(header: &mut [u8], kind: u8, uid: Uid, role: Role, password: &[u8]) -> Option<LineRead>
    requires begun { Begun header.old }
    requires kind_bound { kind ≤ 3 }
    requires uid_bound { uid.0 < 16 }
    requires password_len_bound { length password.now ≤ password_width }
    ensures { read_as result header.new ≡ after_line header.old (fitting (accept (l_line uid role password.now) (reading_in kind header.old))) }
{
    if !is_known(header, uid) {
        return None;
    }
    let n = header[GRANTS];
    if 32 <= n {
        return None;
    }
    write_grant(header, GRANTS + 1 + GRANT * n as usize, uid, role, password);
    header[GRANTS] = n + 1;
    Some(LineRead::More(3))
}

// Reads a line, without its byte 10, behind lines of which the last was of this kind, into the header that they have made.
pub fn read_line(header: &mut [u8], kind: u8, line: &[u8]) -> Option<LineRead>
    requires begun { Begun header.old }
    requires kind_bound { kind ≤ 3 }
    ensures { read_as result header.new ≡ after_line header.old (setup_step line.now (reading_in kind header.old)) }
{
    if same(line, b"end") {
        return Some(LineRead::End);
    }
    let read = line_at(line, 0, line.len())?;
    match read {
        SetupLine::Person { uid, gid } => name_person(header, kind, uid, gid),
        SetupLine::Group { uid, gid } => join_group(header, kind, uid, gid),
        SetupLine::Pair { senior, junior } => add_pair(header, kind, senior, junior),
        SetupLine::Grant {
            uid,
            role,
            password,
        } => add_grant(header, kind, uid, role, password.of(line)),
    }
}
