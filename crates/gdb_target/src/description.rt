//! The description of the target (gdb manual, appendix G, "Target Descriptions"): constant text.
//!
//! [`push_description`] adds it as a whole, its registers in the order of their numbers (`register`). What they
//! hold is told elsewhere, and the parts that gdb reads are cut in `part`.

ghost use Rattle.std.specs.Prelude.{◌≡◌, ◌≤◌, length};
ghost use Rattle.arrayvec.specs.ArrayVec.{array_vec_len};

use gdb_packet::Bytes;
use text_out::page::push;

fn head() -> &'static [u8]
    ensures { length result.now ≤ 700 }
{
    b"<?xml version=\"1.0\"?><!DOCTYPE target SYSTEM \"gdb-target.dtd\">\
<target version=\"1.0\"><architecture>i386</architecture>\
<feature name=\"org.gnu.gdb.i386.core\"><flags id=\"i386_eflags\" size=\"4\">\
<field name=\"CF\" start=\"0\" end=\"0\"/><field name=\"\" start=\"1\" end=\"1\"/>\
<field name=\"PF\" start=\"2\" end=\"2\"/><field name=\"AF\" start=\"4\" end=\"4\"/>\
<field name=\"ZF\" start=\"6\" end=\"6\"/><field name=\"SF\" start=\"7\" end=\"7\"/>\
<field name=\"OF\" start=\"11\" end=\"11\"/></flags>"
}

fn general() -> &'static [u8]
    ensures { length result.now ≤ 700 }
{
    b"<reg name=\"eax\" bitsize=\"32\" type=\"int32\"/><reg name=\"ecx\" bitsize=\"32\" type=\"int32\"/>\
<reg name=\"edx\" bitsize=\"32\" type=\"int32\"/><reg name=\"ebx\" bitsize=\"32\" type=\"int32\"/>\
<reg name=\"esp\" bitsize=\"32\" type=\"data_ptr\"/><reg name=\"ebp\" bitsize=\"32\" type=\"data_ptr\"/>\
<reg name=\"esi\" bitsize=\"32\" type=\"int32\"/><reg name=\"edi\" bitsize=\"32\" type=\"int32\"/>\
<reg name=\"eip\" bitsize=\"32\" type=\"code_ptr\"/><reg name=\"eflags\" bitsize=\"32\" type=\"i386_eflags\"/>"
}

fn segments() -> &'static [u8]
    ensures { length result.now ≤ 700 }
{
    b"<reg name=\"cs\" bitsize=\"32\" type=\"int32\"/><reg name=\"ss\" bitsize=\"32\" type=\"int32\"/>\
<reg name=\"ds\" bitsize=\"32\" type=\"int32\"/><reg name=\"es\" bitsize=\"32\" type=\"int32\"/>\
<reg name=\"fs\" bitsize=\"32\" type=\"int32\"/><reg name=\"gs\" bitsize=\"32\" type=\"int32\"/>"
}

fn stack() -> &'static [u8]
    ensures { length result.now ≤ 700 }
{
    b"<reg name=\"st0\" bitsize=\"80\" type=\"i387_ext\"/><reg name=\"st1\" bitsize=\"80\" type=\"i387_ext\"/>\
<reg name=\"st2\" bitsize=\"80\" type=\"i387_ext\"/><reg name=\"st3\" bitsize=\"80\" type=\"i387_ext\"/>\
<reg name=\"st4\" bitsize=\"80\" type=\"i387_ext\"/><reg name=\"st5\" bitsize=\"80\" type=\"i387_ext\"/>\
<reg name=\"st6\" bitsize=\"80\" type=\"i387_ext\"/><reg name=\"st7\" bitsize=\"80\" type=\"i387_ext\"/>"
}

fn control() -> &'static [u8]
    ensures { length result.now ≤ 700 }
{
    b"<reg name=\"fctrl\" bitsize=\"32\" type=\"int\" group=\"float\"/>\
<reg name=\"fstat\" bitsize=\"32\" type=\"int\" group=\"float\"/>\
<reg name=\"ftag\" bitsize=\"32\" type=\"int\" group=\"float\"/>\
<reg name=\"fiseg\" bitsize=\"32\" type=\"int\" group=\"float\"/>\
<reg name=\"fioff\" bitsize=\"32\" type=\"int\" group=\"float\"/>\
<reg name=\"foseg\" bitsize=\"32\" type=\"int\" group=\"float\"/>\
<reg name=\"fooff\" bitsize=\"32\" type=\"int\" group=\"float\"/>\
<reg name=\"fop\" bitsize=\"32\" type=\"int\" group=\"float\"/></feature>"
}

// The types of the registers of a transaction.
fn transaction_types() -> &'static [u8]
    ensures { length result.now ≤ 700 }
{
    b"<feature name=\"org.elide.tm\"><flags id=\"tm_status\" size=\"4\">\
<field name=\"EXPLICIT\" start=\"0\" end=\"0\"/><field name=\"RETRY\" start=\"1\" end=\"1\"/>\
<field name=\"CONFLICT\" start=\"2\" end=\"2\"/><field name=\"CAPACITY\" start=\"3\" end=\"3\"/>\
<field name=\"DEBUG\" start=\"4\" end=\"4\"/><field name=\"NESTED\" start=\"5\" end=\"5\"/>\
<field name=\"code\" start=\"24\" end=\"31\" type=\"uint8\"/></flags>\
<enum id=\"tm_state\" size=\"4\"><evalue name=\"RUN\" value=\"0\"/><evalue name=\"OPEN\" value=\"1\"/>\
<evalue name=\"CONDEMNED\" value=\"2\"/><evalue name=\"STOPPED\" value=\"3\"/></enum>"
}

// The registers of a transaction.
fn transaction() -> &'static [u8]
    ensures { length result.now ≤ 700 }
{
    b"<reg name=\"tm_state\" bitsize=\"32\" type=\"tm_state\" group=\"tm\"/>\
<reg name=\"tm_depth\" bitsize=\"32\" type=\"uint32\" group=\"tm\"/>\
<reg name=\"tm_status\" bitsize=\"32\" type=\"tm_status\" group=\"tm\"/>\
<reg name=\"tm_reads\" bitsize=\"32\" type=\"uint32\" group=\"tm\"/>\
<reg name=\"tm_writes\" bitsize=\"32\" type=\"uint32\" group=\"tm\"/>\
<reg name=\"tm_step\" bitsize=\"32\" type=\"uint32\" group=\"tm\"/></feature></target>"
}

/// Adds the description: the registers of `org.gnu.gdb.i386.core`, all of which gdb wants, and those of a transaction.
pub fn push_description(row: &mut Bytes)
    requires { array_vec_len row.old ≡ 0 }
    ensures { array_vec_len row.new ≤ 7000 }
{
    push(row, head());
    push(row, general());
    push(row, segments());
    push(row, stack());
    push(row, control());
    push(row, transaction_types());
    push(row, transaction());
}
