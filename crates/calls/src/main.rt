// Register reads, read-back, one pixel and the composites through the code, each answer compared with the scope paper's.
// A line for each group says how many answers were right, of how many.
#![tactic(auto)]

use std::io;

mod composites;
mod offsets;
mod parts;
mod readings;
mod score;

fn main(rt: HostRuntime) -> io::Result<()> {
    for (group, right, all) in [
        ("readings at reset", readings::at_reset(0), 20),
        (
            "readings at reset, planes held",
            readings::at_reset(0xA5),
            20,
        ),
        ("readings after writes", readings::after_writes(), 20),
        ("pixel mask at both offsets", readings::pixel_mask(), 10),
        ("bits that read as zero", readings::ignored_bits(), 8),
        (
            "bits that read as zero, handed in",
            readings::handed_in(),
            4,
        ),
        ("offsets not listed, below 1000h", offsets::low(), 4076),
        ("offsets not listed, above", offsets::high(), 6),
        (
            "004Ch, 0160h and 0164h, write only",
            offsets::write_only(),
            12,
        ),
        ("read-back of parts", parts::accepted(), 8),
        ("read-back past the end", parts::past_the_end(), 5),
        ("read-back near 2^32", parts::near_the_top(), 5),
        ("read-back of bad lengths", parts::bad_length(), 7),
        (
            "one pixel under every operation",
            composites::one_pixel(),
            64,
        ),
        ("composites of S9", composites::s9(), 4),
        ("composites by the rule", composites::by_the_rule(), 256),
        ("composites with no operation", composites::with_five(), 32),
        ("composites of three", composites::of_three(), 4096),
    ] {
        let verdict = if right == all { "ok" } else { "DIFFERS" };
        println!(rt; "{group}: {right} of {all} {verdict}")?;
    }
    Ok(())
}
