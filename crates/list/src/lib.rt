// Reading the text of a list [01 §6].
#![tactic(auto)]

ghost use Rattle.std.specs.Prelude.{◌≡◌};
ghost use Rattle.list.specs.List.{ListTaken};

use cursor::{Cursor, Place};
use layout::FIELDS;
use text::{BadLine, Columns, read_text};

// The whole text: at most 65,536 bytes, the header, then a row in each line; how many rows, or the first bad line.
pub fn read_list(text: &[u8], list: &mut [u64], names: &mut [Place]) -> Result<usize, BadLine>
    ensures { ListTaken text.now list.old names.old list.new names.new result }
{
    let columns = Columns {
        before: 1,
        named: true,
        after: FIELDS - 1,
    };
    read_text(
        text,
        Cursor { at: 0, line: 1 },
        b"row,name,feeds_from,kind,volts,work,selfstart,return,far,clear,near,factor,low,high,step,device,floor,ceiling,backed,\
          rated_primary,rated_secondary,law,near_greatest",
        columns,
        list,
        names,
    )
}
