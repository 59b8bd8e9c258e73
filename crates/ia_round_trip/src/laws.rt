//! Laws of printed text. Each function does nothing: its contract is the law.

ghost use Rattle.ia_round_trip.specs.PrintedTokens.{TextHasItsTokens};
ghost use Rattle.ia_round_trip.specs.Lines.{TextIsOneLine};
ghost use Rattle.ia_round_trip.specs.Operands.{OperandReadsBack, OperandsReadBack};
ghost use Rattle.ia_round_trip.specs.Mnemonics.{HeadReadsBack};
ghost use Rattle.ia_round_trip.specs.Forms.{FormReadsBack};
ghost use Rattle.ia_round_trip.specs.RoundTrip.{InstructionReadsBack};
ghost use Rattle.ia_round_trip.specs.Program.{SourceReadsBack};
ghost use Rattle.ia_round_trip.specs.Expressions.{ExpressionsAgree};
ghost use Rattle.ia_round_trip.specs.Bytes.{LineAssemblesToItsBytes, SourceAssemblesToItsBytes};

/// The text of an instruction takes one line, at the end of a source or before a line feed.
pub fn text_is_one_line()
    ensures { TextIsOneLine }
{}

/// The text of an instruction has the tokens of its mnemonic and operands.
pub fn text_has_its_tokens()
    ensures { TextHasItsTokens }
{}

/// The tokens of each operand that may stand in an encodable instruction are read as that operand.
pub fn operand_reads_back()
    ensures { OperandReadsBack }
{}

/// The tokens of the operands of an operation are read as those operands, one by one.
pub fn operands_read_back()
    ensures { OperandsReadBack }
{}

/// The tokens of an instruction begin with LOCK or none and its mnemonic, and go on with its operands.
pub fn head_reads_back()
    ensures { HeadReadsBack }
{}

/// The mnemonic of an encodable instruction and the operands that are printed for it at an address fit a form: it is
/// the instruction, once the values of its expressions at that address stand in their fields.
pub fn form_reads_back()
    ensures { FormReadsBack }
{}

/// The text of an encodable instruction at an address, which is what `ia_text::write_insn` writes, is read as a line of
/// a source wherever it stands, as one instruction and nothing else. With the values of its expressions at that address
/// it is the instruction that was printed.
pub fn instruction_reads_back()
    ensures { InstructionReadsBack }
{}

/// A source that puts the text of an encodable instruction at an address by `org` asks for that base and for one
/// instruction, which is the one that was printed.
pub fn source_reads_back()
    ensures { SourceReadsBack }
{}

/// An expression without symbols has the same value where its text is read and where its item is placed, whatever
/// symbols there are: it has no fault of its own there, and leaves its field as short as it is.
pub fn expressions_agree()
    ensures { ExpressionsAgree }
{}

/// The text of an encodable instruction at an address is read as one instruction wherever it stands in a source, and
/// placed at that address it has exactly the bytes that `ia_encode::encode` gives for the printed one, and no fault but
/// that it may end too far from the base or past 2^32. No symbol of the source changes that.
pub fn line_assembles_to_its_bytes()
    ensures { LineAssemblesToItsBytes }
{}

/// A source that puts the text of an encodable instruction at an address by `org`, from which it ends at or below 2^32,
/// assembles to exactly the bytes that `ia_encode::encode` gives for the instruction, at that base: `ia_asm::assemble`
/// answers this image, or that memory was refused, and nothing else.
pub fn source_assembles_to_its_bytes()
    ensures { SourceAssemblesToItsBytes }
{}
