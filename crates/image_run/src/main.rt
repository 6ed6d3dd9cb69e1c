// Pages of both images as `view` shows them, and what it refuses. In both images each two bytes tell their page: its number's low byte, then f0 and the
// number's high byte in the flash image, e0 and the high byte in the EEPROM image. A page is printed by its length, its first two bytes and its last two.
#![tactic(auto)]

ghost use Rattle.std.specs.Prelude.{◌<◌, ◌≤◌};

use record::Chip;
use std::io;

fn put_byte<R: Print>(rt: &R, b: u8) -> io::Result<()> {
    print!(rt; " {b:02x}")
}

// A part of an image.
fn print<R: Print>(rt: &R, part: &[u8]) -> io::Result<()> {
    let n = part.len();
    print!(rt; "{n}")?;
    if 4 <= n {
        put_byte(rt, part[0])?;
        put_byte(rt, part[1])?;
        put_byte(rt, part[n - 2])?;
        put_byte(rt, part[n - 1])?;
    }
    println!(rt;)
}

// What is laid at a place of an image: its page's number, the low byte at an even place, at an odd one the high byte with the image's mark.
fn laid(place: usize, page: usize, mark: u8) -> u8
    requires { (0 < page) × (mark ≤ 254) }
{
    let [low, high, ..] = (place / page).to_le_bytes();
    if place % 2 == 0 { low } else { mark + high % 2 }
}

fn lay(bytes: &mut [u8], page: usize, mark: u8)
    requires { (0 < page) × (mark ≤ 254) }
{
    for (place, b) in bytes.iter_mut().enumerate() {
        *b = laid(place, page, mark);
    }
}

fn flash_pages<R: Print>(rt: &R, flash: &[u8], eeprom: &[u8]) -> io::Result<()> {
    for number in [0, 1, 127, 128] {
        print!(rt; "flash {number}\t")?;
        print(rt, image::view::view(flash, eeprom, Chip::Flash, number))?;
    }
    Ok(())
}

// Kept: as the flash's; one function of both takes six parameters for two calls.
fn eeprom_pages<R: Print>(rt: &R, flash: &[u8], eeprom: &[u8]) -> io::Result<()> {
    for number in [0, 1, 256, 511, 512] {
        print!(rt; "eeprom {number}\t")?;
        print(rt, image::view::view(flash, eeprom, Chip::Eeprom, number))?;
    }
    Ok(())
}

// One image is not as long as is kept: no page of either is shown.
fn wrong_length<R: Print>(rt: &R, flash: &[u8], eeprom: &[u8]) -> io::Result<()> {
    print!(rt; "flash 0, wrong length\t")?;
    print(rt, image::view::view(flash, eeprom, Chip::Flash, 0))?;
    print!(rt; "eeprom 0, wrong length\t")?;
    print(rt, image::view::view(flash, eeprom, Chip::Eeprom, 0))
}

fn main(rt: HostRuntime) -> io::Result<()> {
    let mut flash = [0u8; image::FLASH_KEPT];
    let mut eeprom = [0u8; image::EEPROM_KEPT];
    lay(&mut flash, 256, 240);
    lay(&mut eeprom, 64, 224);
    flash_pages(&rt, &flash, &eeprom)?;
    eeprom_pages(&rt, &flash, &eeprom)?;
    let short = [0u8; image::FLASH_KEPT - 1];
    let long = [0u8; image::FLASH_KEPT + 1];
    wrong_length(&rt, &short, &eeprom)?;
    wrong_length(&rt, &flash, &short)?;
    wrong_length(&rt, &long, &eeprom)?;
    wrong_length(&rt, &flash, &long)
}
