//! Families of metrics.

ghost use Rattle.std.specs.Prelude.{◌≡◌, string_bytes};
ghost use Rattle.metrics.specs.Families.{kind_word, suffix_text};

use crate::number::Number;
use std::marker::Model;

/// What the samples of a family are.
#[derive(Clone, Copy, Debug, PartialEq, Eq)]
pub enum Kind {
    /// A number that only grows while the process runs.
    Counter,
    /// A number that may also fall.
    Gauge,
    /// Observations, counted by their size.
    Histogram,
}

impl Kind {
    /// The word of the kind in the text.
    pub(crate) fn word(self) -> &'static str
        ensures { result.now ≡ kind_word self }
    {
        match self {
            Kind::Counter => "counter",
            Kind::Gauge => "gauge",
            Kind::Histogram => "histogram",
        }
    }
}

/// What stands behind the family's name in the line of a sample.
#[derive(Clone, Copy, Debug, PartialEq, Eq)]
pub enum Suffix {
    /// Nothing: the sample of a counter or a gauge.
    Plain,
    /// `_bucket`: how many observations of a histogram are at most the label `le`.
    Bucket,
    /// `_sum`: the sum of all observations of a histogram.
    Sum,
    /// `_count`: the number of all observations of a histogram.
    Count,
}

impl Suffix {
    /// The suffix as the text shows it.
    pub(crate) fn text(self) -> &'static str
        ensures { result.now ≡ suffix_text self }
    {
        match self {
            Suffix::Plain => "",
            Suffix::Bucket => "_bucket",
            Suffix::Sum => "_sum",
            Suffix::Count => "_count",
        }
    }
}

/// A name with a value, which tells a sample from others of its family.
#[derive(Drop)]
pub struct Label {
    pub(crate) name: &'static str,
    pub(crate) value: String,
}

impl Model for Label {
    ghost use Rattle.std.specs.Prelude.{string_bytes};
    ghost use Rattle.metrics.specs.Families.{LabelView};

    ghost Value = { LabelView };

    ghost view = { λ label. record { name = label.name.now; value = string_bytes label.value } };
}

impl Label {
    /// A label. The name is written as it is: it has to be a letter or `_`, then letters, digits
    /// and `_`. The value may be any text.
    pub fn new(name: &'static str, value: String) -> Label
        ensures { result ≡ record { name = name.now; value = string_bytes value } }
    {
        Label { name, value }
    }
}

/// A number of a family, with its labels.
#[derive(Drop)]
pub struct Sample {
    pub(crate) suffix: Suffix,
    pub(crate) labels: Vec<Label>,
    pub(crate) number: Number,
}

impl Model for Sample {
    ghost use Rattle.metrics.specs.Families.{SampleView};

    ghost Value = { SampleView };

    ghost view = { λ sample. record {
      suffix = sample.suffix;
      labels = sample.labels.items;
      number = sample.number;
    } };
}

impl Sample {
    /// A sample. No two of its labels may have one name, and no two samples of a family may have
    /// the same suffix and labels.
    pub fn new(suffix: Suffix, labels: Vec<Label>, number: Number) -> Sample
        ensures { result ≡ record { suffix = suffix; labels = labels.items; number = number } }
    {
        Sample {
            suffix,
            labels,
            number,
        }
    }
}

/// A metric: a name, what it tells, and its samples.
#[derive(Drop)]
pub struct Family {
    pub(crate) name: &'static str,
    pub(crate) help: &'static str,
    pub(crate) kind: Kind,
    pub(crate) samples: Vec<Sample>,
}

impl Model for Family {
    ghost use Rattle.metrics.specs.Families.{FamilyView};

    ghost Value = { FamilyView };

    ghost view = { λ family. record {
      name = family.name.now;
      help = family.help.now;
      kind = family.kind;
      samples = family.samples.items;
    } };
}

impl Family {
    /// A family. The name is written as it is: it has to be a letter, `_` or `:`, then letters,
    /// digits, `_` and `:`. The help may be any text.
    pub fn new(name: &'static str, help: &'static str, kind: Kind, samples: Vec<Sample>) -> Family
        ensures { result ≡ record {
          name = name.now;
          help = help.now;
          kind = kind;
          samples = samples.items;
        } }
    {
        Family {
            name,
            help,
            kind,
            samples,
        }
    }
}
