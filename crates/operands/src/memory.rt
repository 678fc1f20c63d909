// Memory operands, as pieces.
ghost use Rattle.std.specs.Prelude.{◌≡◌};
ghost use Rattle.operands.specs.Memories.{is_descriptor_table, label_text, fpu_text, size_text, memory_text, width_bits, gpr_mem_text};

use crate::setting::{MemoryBits, Setting};
use forms::codes::{MemoryLabel, Tag};
use kinds::Width;
use text::pieces;
use text::pieces::{Decimal, Piece, Text, When};
use text::writer::{WriteFault, Writer};

/// The size, or what the label says in its place, in a form with this tag.
#[derive(Clone, Copy)]
struct LabelText {
    tag: Tag,
    memory: MemoryBits,
}

impl Piece for LabelText {
    ghost spelled = { λ x. label_text (is_descriptor_table x.tag) x.memory.label x.memory.bits };

    fn print(self, w: &mut Writer) -> Result<(), WriteFault> {
        match self.memory.label {
            MemoryLabel::Plain | MemoryLabel::Int | MemoryLabel::Float | MemoryLabel::Bcd => {
                When(self.memory.bits != 0, Decimal(self.memory.bits)).print(w)
            }
            MemoryLabel::Bound16 => w.text(b"16&16"),
            MemoryLabel::Bound32 => w.text(b"32&32"),
            MemoryLabel::FpuEnv14 => w.text(b"14byte"),
            MemoryLabel::FpuEnv28 => w.text(b"28byte"),
            MemoryLabel::FpuState94 => w.text(b"94byte"),
            MemoryLabel::FpuState108 => w.text(b"108byte"),
            MemoryLabel::Fxsave => w.text(b"512byte"),
            MemoryLabel::Xsave => w.text(b"em"),
            MemoryLabel::SegPtr16 => w.text(b"16:16"),
            MemoryLabel::SegPtr32 => w.text(b"16:32"),
            MemoryLabel::SegPtr64 => w.text(b"16:64"),
            MemoryLabel::Fword6 => When(self.tag != Tag::DescriptorTable, Text(b"16&32")).print(w),
            MemoryLabel::Fword10 => When(self.tag != Tag::DescriptorTable, Text(b"16&64")).print(w),
        }
    }
}

// What an FPU instruction's memory holds.
fn fpu_text(label: MemoryLabel) -> Text<'static>
    ensures { result.0.now ≡ fpu_text label }
{
    match label {
        MemoryLabel::Int => Text(b"int"),
        MemoryLabel::Float => Text(b"fp"),
        MemoryLabel::Bcd => Text(b"bcd"),
        _ => Text(b""),
    }
}

/// What follows the `m` of a memory.
#[derive(Clone, Copy)]
pub(crate) struct SizeText {
    pub setting: Setting,
    pub memory: MemoryBits,
}

impl Piece for SizeText {
    ghost spelled = { λ x. size_text x.setting x.memory };

    fn print(self, w: &mut Writer) -> Result<(), WriteFault> {
        let SizeText { setting, memory } = self;
        if setting.tag == Tag::TwoByte {
            w.text(b"2byte")
        } else {
            pieces!(
                LabelText {
                    tag: setting.tag,
                    memory
                },
                When(setting.flags.fpu, fpu_text(memory.label))
            )
            .print(w)
        }
    }
}

/// The memory, and its broadcast element if it has one.
#[derive(Clone, Copy)]
pub(crate) struct MemoryText(pub Setting);

impl Piece for MemoryText {
    ghost spelled = { λ x. memory_text x.0 };

    fn print(self, w: &mut Writer) -> Result<(), WriteFault> {
        let setting = self.0;
        pieces!(
            Text(b"m"),
            SizeText {
                setting,
                memory: setting.memory,
            },
            When(
                setting.flags.broadcast,
                pieces!(
                    Text(b"/m"),
                    SizeText {
                        setting,
                        memory: setting.element,
                    },
                    Text(b"bcst")
                )
            )
        )
        .print(w)
    }
}

// The width of a general register in bits.
pub(crate) fn bits(width: Width) -> u32
    ensures { result ≡ width_bits width }
{
    match width {
        Width::W8 => 8,
        Width::W16 => 16,
        Width::W32 => 32,
        Width::W64 => 64,
    }
}

/// A general register or memory.
#[derive(Clone, Copy)]
pub(crate) struct GprMemText {
    pub setting: Setting,
    pub width: Width,
}

impl Piece for GprMemText {
    ghost spelled = { λ x. gpr_mem_text x.setting x.width };

    fn print(self, w: &mut Writer) -> Result<(), WriteFault> {
        let bits = bits(self.width);
        pieces!(
            Text(b"r"),
            When(self.setting.memory.bits != bits, Decimal(bits)),
            Text(b"/"),
            MemoryText(self.setting)
        )
        .print(w)
    }
}
