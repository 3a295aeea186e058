// The register's three calls, for C.
ghost use Rattle.std.specs.Prelude.{◌≡◌};
ghost use Rattle.field_register.specs.rules.Reading.{reading_of};
ghost use Rattle.bench.specs.rules.Registers.{read_value, bit_told, setting_told};

// Reads a text.
#[unsafe(no_mangle)]
pub extern "C" fn ais_register_read(text: &[u8]) -> u64
    ensures { result ≡ read_value (reading_of text.now) }
{
    bench::registers::ais_register_read(text)
}

// Which field a bit of a word is in a release: its name, and since when.
#[unsafe(no_mangle)]
pub extern "C" fn ais_register_bit(
    text: &[u8],
    word: u32,
    bit: u32,
    release: u32,
    name: &mut [u8],
) -> u64
    ensures value { result ≡ (bit_told text.now word bit release name.old).value }
    ensures name_after { name.new ≡ (bit_told text.now word bit release name.old).room }
{
    bench::registers::ais_register_bit(text, word, bit, release, name)
}

// A field, a release and a value as the words of the command that sets it.
#[unsafe(no_mangle)]
pub extern "C" fn ais_register_command(
    text: &[u8],
    name: &[u8],
    release: u32,
    value: u32,
    command: &mut [u8],
) -> u64
    ensures value { result ≡ (setting_told text.now name.now release value command.old).value }
    ensures command_after { command.new ≡ (setting_told text.now name.now release value command.old).room }
{
    bench::registers::ais_register_command(text, name, release, value, command)
}
