// What is exported for C: each function of desk that a C caller calls, under the same name and with the same clauses.
// Kept: chips and answers are numbers here, and each lent buffer is a slice: the C interface.
#![tactic(auto)]

ghost use Rattle.std.specs.Prelude.{◌≡◌};
ghost use Rattle.image.specs.Images.{per_chip};
ghost use Rattle.image.specs.View.{view_place, view_length};
ghost use Rattle.buffers.specs.Buffers.{buffers_of};
ghost use Rattle.call.specs.Replay.{ended_as, Replays, chip_of};
ghost use Rattle.fewest.specs.Call.{left_as, Plans};
ghost use Rattle.merged.specs.Merging.{outputs_of, wrote_as, Merges};
ghost use Rattle.engine.specs.Playing.{lent_of, played_as, Plays};

// The call: document 01's table of answers 0 to 8, on the caller's own buffers; with the pages' times, and a 3 with its field (document 02, requests 1/12 and 2/12).
#[unsafe(no_mangle)]
pub extern "C" fn hazelcrook_replay(
    text: &[u8],
    flash: &mut [u8],
    flash_mask: &mut [u8],
    eeprom: &mut [u8],
    eeprom_mask: &mut [u8],
    times: &mut [u8],
    replies: &mut [u8],
    res: &mut [u8],
) -> u32
    ensures { Replays text.now
        (buffers_of flash.old flash_mask.old eeprom.old eeprom_mask.old times.old replies.old res.old)
        (ended_as result (buffers_of flash.new flash_mask.new eeprom.new eeprom_mask.new times.new replies.new res.new)) }
{
    desk::hazelcrook_replay(
        text,
        flash,
        flash_mask,
        eeprom,
        eeprom_mask,
        times,
        replies,
        res,
    )
}

// Where a page stands in its image, by the images' lengths: the page view for a C caller.
#[unsafe(no_mangle)]
pub extern "C" fn hazelcrook_page_place(
    flash: usize,
    eeprom: usize,
    chip: u32,
    number: usize,
) -> usize
    ensures { result ≡ view_place (per_chip flash eeprom) (chip_of chip) number }
{
    desk::hazelcrook_page_place(flash, eeprom, chip, number)
}

// How long the page is; 0 is refusal 11.
#[unsafe(no_mangle)]
pub extern "C" fn hazelcrook_page_length(
    flash: usize,
    eeprom: usize,
    chip: u32,
    number: usize,
) -> usize
    ensures { result ≡ view_length (per_chip flash eeprom) (chip_of chip) number }
{
    desk::hazelcrook_page_length(flash, eeprom, chip, number)
}

// The plan that refills the flash in the fewest write cycles: answers 0, 14, 15 and 16 (document 02, request 6/12).
#[unsafe(no_mangle)]
pub extern "C" fn hazelcrook_plan(
    present: &[u8],
    wanted: &[u8],
    status: u8,
    list: &mut [u8],
    res: &mut [u8],
) -> u32
    ensures { Plans status present.now wanted.now list.old res.old (left_as result list.new res.new) }
{
    desk::hazelcrook_plan(present, wanted, status, list, res)
}

// One trace of a capture and a logger's trace: answers 0 to 5, 10, 12 and 13 (document 02, request 4/12).
#[unsafe(no_mangle)]
pub extern "C" fn hazelcrook_merge(
    levels: &[u8],
    trace: &[u8],
    output: &mut [u8],
    res: &mut [u8],
) -> u32
    ensures { Merges levels.now trace.now (outputs_of output.old res.old) (wrote_as result (outputs_of output.new res.new)) }
{
    desk::hazelcrook_merge(levels, trace, output, res)
}

// The second engine, which plays the levels straight through: answers 0 to 5, 12 and 13 (document 02, request 4/12).
#[unsafe(no_mangle)]
pub extern "C" fn hazelcrook_play_levels(
    levels: &[u8],
    trace: &[u8],
    flash: &mut [u8],
    flash_mask: &mut [u8],
    eeprom: &mut [u8],
    eeprom_mask: &mut [u8],
    res: &mut [u8],
) -> u32
    ensures { Plays levels.now trace.now
        (lent_of flash.old flash_mask.old eeprom.old eeprom_mask.old res.old)
        (played_as result (lent_of flash.new flash_mask.new eeprom.new eeprom_mask.new res.new)) }
{
    desk::hazelcrook_play_levels(levels, trace, flash, flash_mask, eeprom, eeprom_mask, res)
}
