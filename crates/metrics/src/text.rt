//! The text of families.

ghost use Rattle.std.specs.Prelude.{◌≡◌, ◌++◌, IfOk, OnOk, codes, string_bytes};
ghost use Rattle.std.specs.List.{flat_map};
ghost use Rattle.metrics.specs.Families.{families_text, family_head, family_text, help_byte};
ghost use Rattle.metrics.specs.Families.{label_text, labels_text, sample_text};

use crate::escape::{Place, push_escaped};
use crate::family::{Family, Label, Sample};
use base_types::NoMemory;
use std::alloc::Global;
use std::fmt::Write;

/// The text of these families, in their order, in Prometheus' text form, version 0.0.4. Each has
/// two lines and one for each sample. Linear in the text.
///
/// # Errors
///
/// `NoMemory` if an allocation failed.
pub fn write_families(alloc: Global, families: &[Family]) -> Result<String, NoMemory>
    ensures { IfOk result (λ text. string_bytes text ≡ families_text families.now) }
{
    let mut output = String::new(alloc);
    for family in families {
        push_family(&mut output, family)?;
    }
    Ok(output)
}

/// Appends the lines of a family.
fn push_family(output: &mut String, family: &Family) -> Result<(), NoMemory>
    ensures { OnOk result
        (string_bytes output.new ≡ string_bytes output.old ++ family_text family.now) }
{
    push_head(output, family)?;
    push_samples(output, family.name, &family.samples)
}

/// Appends the two lines before the samples of a family.
fn push_head(output: &mut String, family: &Family) -> Result<(), NoMemory>
    ensures { OnOk result
        (string_bytes output.new ≡ string_bytes output.old ++ family_head family.now) }
{
    push_help(output, family.name, family.help)?;
    let (name, kind) = (family.name, family.kind.word());
    write!(output, "\n# TYPE {name} {kind}\n")?;
    Ok(())
}

/// Appends the line of the help of the family of this name, without its end.
fn push_help(output: &mut String, name: &str, help: &str) -> Result<(), NoMemory>
    ensures { OnOk result (string_bytes output.new ≡ string_bytes output.old
        ++ codes "# HELP " ++ name.now ++ codes " " ++ flat_map help_byte help.now) }
{
    write!(output, "# HELP {name} ")?;
    push_escaped(output, Place::Help, help)
}

/// Appends the lines of samples of the family of this name.
fn push_samples(output: &mut String, name: &str, samples: &[Sample]) -> Result<(), NoMemory>
    ensures { OnOk result (string_bytes output.new
        ≡ string_bytes output.old ++ flat_map (sample_text name.now) samples.now) }
{
    for sample in samples {
        push_sample(output, name, sample)?;
    }
    Ok(())
}

/// Appends the line of a sample of the family of this name.
fn push_sample(output: &mut String, name: &str, sample: &Sample) -> Result<(), NoMemory>
    ensures { OnOk result
        (string_bytes output.new ≡ string_bytes output.old ++ sample_text name.now sample.now) }
{
    output.push_str(name)?;
    output.push_str(sample.suffix.text())?;
    push_labels(output, &sample.labels)?;
    let number = sample.number;
    write!(output, " {number}\n")?;
    Ok(())
}

/// Appends labels in braces, or nothing if there are none.
fn push_labels(output: &mut String, labels: &[Label]) -> Result<(), NoMemory>
    ensures { OnOk result
        (string_bytes output.new ≡ string_bytes output.old ++ labels_text labels.now) }
{
    let Some((first, others)) = labels.split_first() else {
        return Ok(());
    };
    output.push_str("{")?;
    push_label(output, first)?;
    for label in others {
        output.push_str(",")?;
        push_label(output, label)?;
    }
    output.push_str("}")?;
    Ok(())
}

/// Appends a label, with its value in quotes.
fn push_label(output: &mut String, label: &Label) -> Result<(), NoMemory>
    ensures { OnOk result
        (string_bytes output.new ≡ string_bytes output.old ++ label_text label.now) }
{
    output.push_str(label.name)?;
    output.push_str("=\"")?;
    push_escaped(output, Place::LabelValue, &label.value)?;
    output.push_str("\"")?;
    Ok(())
}
