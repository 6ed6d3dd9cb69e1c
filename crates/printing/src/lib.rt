// What the programs print of a text and of dumps (document 01, 'One listing in full'; document 02, request 1/12): the text is replayed on the dumps' images, and what
// the call left is listed.
#![tactic(auto)]

ghost use Rattle.std.specs.Prelude.{◌≡◌, ◌≤◌, length, take};
ghost use Rattle.image.specs.Image.{image_of};
ghost use Rattle.record.specs.Lengths.{replies_length, result_length};
ghost use Rattle.times.specs.Times.{times_length};
ghost use Rattle.printing.specs.Printed.{dump_of, dumps_of, Prints, PrintsPages};
ghost use Rattle.printing.specs.Lending.{lent_for, LeftFor};

mod merge;

pub use merge::{MERGE_ROOM, Unmerged, print_merge};

// The image that stands for a dump, of which so many bytes are to be lent.
// Kept: the length stands beside the array, all of it or 0: a struct can't hold a slice of its own array.
#[derive(Drop)]
struct DumpImage<const N: usize> {
    image: [u8; N],
    mask: [u8; N],
    len: usize,
}

impl<const N: usize> DumpImage<N> {
    // A dump is taken as sure: no bit is in doubt; of one of another length nothing is lent, and the call refuses that. Without a dump the image stays.
    // It is filled where it stands: given back by value it would be copied.
    #[tactic(auto, unfolding(crate::specs::Lending::lent_for))]
    fn fill(&mut self, dump: Option<&[u8]>)
        requires { self.old.len ≡ N }
        ensures { (self.new.len ≤ N) × (image_of (take self.new.len self.new.image) self.new.mask ≡ lent_for (dump_of dump.entry) (image_of self.old.image self.old.mask)) }
    {
        let Some(dump) = dump else {
            return;
        };
        if dump.len() != N {
            self.len = 0;
            return;
        }
        self.image.copy_from_slice(dump);
        self.mask.fill(0);
    }
}

// What the call leaves of a text and of dumps.
#[derive(Drop)]
struct Left {
    times: [u8; times::TIMES],
    replies: [u8; record::REPLIES],
    result: [u8; record::RESULT],
}

// Replays the text on the images of the dumps.
fn replay(text: &[u8], flash: Option<&[u8]>, eeprom: Option<&[u8]>, left: &mut Left)
    requires { (length left.old.times ≡ times_length) × (length left.old.replies ≡ replies_length) × (length left.old.result ≡ result_length) }
    ensures { LeftFor text.now (dumps_of flash.entry eeprom.entry) left.new.times left.new.replies left.new.result }
{
    // Without a dump all is 00 with mask ff.
    let mut flash_lent = DumpImage {
        image: [0; image::FLASH_KEPT],
        mask: [255; image::FLASH_KEPT],
        len: image::FLASH_KEPT,
    };
    flash_lent.fill(flash);
    let mut eeprom_lent = DumpImage {
        image: [0; image::EEPROM_KEPT],
        mask: [255; image::EEPROM_KEPT],
        len: image::EEPROM_KEPT,
    };
    eeprom_lent.fill(eeprom);
    let flash_len = flash_lent.len;
    let eeprom_len = eeprom_lent.len;
    desk::hazelcrook_replay(
        text,
        &mut flash_lent.image[..flash_len],
        &mut flash_lent.mask,
        &mut eeprom_lent.image[..eeprom_len],
        &mut eeprom_lent.mask,
        &mut left.times,
        &mut left.replies,
        &mut left.result,
    );
}

// Replays the text on the images of the dumps, each there or not, and formats the listing into the output; its length.
pub fn print_replay(
    text: &[u8],
    flash: Option<&[u8]>,
    eeprom: Option<&[u8]>,
    out: &mut [u8],
) -> usize
    ensures printed { Prints text.now (dumps_of flash.entry eeprom.entry) out.old out.new result }
    ensures within { result ≤ length out.new }
{
    let mut left = Left {
        times: [0; times::TIMES],
        replies: [0; record::REPLIES],
        result: [0; record::RESULT],
    };
    replay(text, flash, eeprom, &mut left);
    listing::list(text, &left.replies, &left.result, out)
}

// The same for the listing of the pages written.
pub fn print_pages(
    text: &[u8],
    flash: Option<&[u8]>,
    eeprom: Option<&[u8]>,
    out: &mut [u8],
) -> usize
    ensures printed { PrintsPages text.now (dumps_of flash.entry eeprom.entry) out.old out.new result }
    ensures within { result ≤ length out.new }
{
    let mut left = Left {
        times: [0; times::TIMES],
        replies: [0; record::REPLIES],
        result: [0; record::RESULT],
    };
    replay(text, flash, eeprom, &mut left);
    listing::list_pages(&left.times, &left.result, out)
}
