// Tables over bytes and words, as capi has them.
ghost use Rattle.std.specs.Prelude.{◌≡◌};
ghost use Rattle.motor_table.specs.Records.{read_at};
ghost use Rattle.motor_table.specs.Tables.{read_table};
ghost use Rattle.motor_table.specs.Targets.{target_of};
ghost use Rattle.motor_table.specs.Text.{word_number, entries_of, table_of, written_text};
ghost use Rattle.capi.specs.TableExports.{words_after, next_position, words_read, table_number, written_number};

// How many records a table holds, or its refusal by a model of so many joints.
#[unsafe(no_mangle)]
pub extern "C" fn katydidzinc_motor_table_read(text: &[u8], joints: u32) -> u64
    ensures { result ≡ table_number (read_table joints text.now) }
{
    capi::tables::katydidzinc_motor_table_read(text, joints)
}

// The record at a position: its three numbers as words, and where the next one starts; 0 where there is none.
#[unsafe(no_mangle)]
pub extern "C" fn katydidzinc_motor_table_record(text: &[u8], at: usize, words: &mut [u32]) -> usize
    ensures value { result ≡ next_position (read_at text.now at) }
    ensures words_after { words.new ≡ words_read words.old (read_at text.now at) }
{
    capi::tables::katydidzinc_motor_table_record(text, at, words)
}

// The target velocity of a word of thousandths.
#[unsafe(no_mangle)]
pub extern "C" fn katydidzinc_motor_table_target(word: u32) -> f32
    ensures { result ≡ target_of (word_number word) }
{
    capi::tables::katydidzinc_motor_table_target(word)
}

// The text of a table of words, three a record: its length, or the refusal.
#[unsafe(no_mangle)]
pub extern "C" fn katydidzinc_motor_table_write(table: &[u32], joints: u32, out: &mut [u8]) -> u64
    ensures value { result ≡ written_number (table_of joints (entries_of table.now)) }
    ensures out_after { out.new ≡ written_text out.old (table_of joints (entries_of table.now)) }
{
    capi::tables::katydidzinc_motor_table_write(table, joints, out)
}
