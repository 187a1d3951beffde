// The first working directories, written into a header: a person's home, `/` for any other account.
ghost use Rattle.std.specs.Prelude.{◌≡◌, map, ◌≤◌, ◌<◌, length};
ghost use Rattle.std.proofs.Math.Seq.{paste};
ghost use Rattle.buffers.specs.Fields.{all_bytes};
ghost use Rattle.store.specs.HeaderLayout.{directories_offset, directory_width, directories_width, directory_start, spare_offset};
ghost use Rattle.store.specs.Initial.{first_directory, first_directories};
ghost use Rattle.store.specs.InitialRows.{slot_value};
ghost use Rattle.store.specs.StoreBytes.{directory_bytes};

use accounts::Uid;
use buffers::write_padded;
use store::{DIRECTORIES, DIRECTORY, Person, home_path};

// Writes the first working directory of an account.
fn write_directory(header: &mut [u8], k: usize, person: Person)
    requires k_bound { k < 16 }
    requires spare_offset_in_bounds { spare_offset ≤ length header.old }
    ensures { header.new ≡ paste header.old (directory_start k) (directory_bytes (first_directory (record { 0 = k }) (slot_value person))) directory_width }
{
    let at = DIRECTORIES + DIRECTORY * k;
    let group = person.primary;
    if group.0 == 0 {
        write_padded(header, at, DIRECTORY, b"/");
        return;
    }
    let mut home = [0; 4];
    write_padded(header, at, DIRECTORY, home_path(Uid(k as u8), &mut home));
}

// Writes those of all accounts, whatever stood there.
pub fn write_directories(header: &mut [u8], persons: [Person; 16])
    requires { spare_offset ≤ length header.old }
    ensures { header.new ≡ paste header.old directories_offset (all_bytes directory_bytes (first_directories 0 (map slot_value persons))) directories_width }
{
    for k in 0..16 {
        let person = persons[k];
        write_directory(header, k, person);
    }
}
