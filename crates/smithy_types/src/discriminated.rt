// Documents with the name of their shape.
use crate::document::Document;
use crate::settings::DocumentSettings;
use crate::text::Text;
use std::marker::Model;

/// A document with the full name of its shape, its discriminator, where that is known, and with the settings by which it is read.
#[derive(Drop)]
pub struct DiscriminatedDocument<S: DocumentSettings> {
    document: Document,
    name: Option<Text>,
    settings: S,
}

impl<S: DocumentSettings> Model for DiscriminatedDocument<S> {
    ghost use Rattle.std.specs.Prelude.{List, ℕ, Option, ◌≡◌, refl};
    ghost use Rattle.std.specs.Coded.{code_by, coded×, coded_ℕ, coded_list, coded_option};
    ghost use Rattle.smithy_types.specs.Settings.{Discriminated};
    ghost use Rattle.smithy_types.specs.Documents.{Document as Tree};
    ghost use Rattle.smithy_types.specs.views.DocumentCode.{coded_document};
    ghost use Rattle.smithy_types.specs.views.DocumentView.{view as document_view};

    ghost Value = { Discriminated S };

    ghost coded = { code_by (Tree × (Option (List ℕ) × S)) (coded× coded_document (coded× (coded_option (coded_list coded_ℕ)) S.code)) (λ d. (d.document, (d.discriminator, d.settings))) (λ p. record { document = p.0; discriminator = p.1.0; settings = p.1.1 }) (λ _. refl) };

    ghost view = { λ a. record {
      document = document_view a.document;
      discriminator = a.name;
      settings = a.settings;
    } };
}

impl<S: DocumentSettings> DiscriminatedDocument<S> {
    ghost use Rattle.std.specs.Prelude.{◌≡◌, Some, None, option_map};
    ghost use Rattle.smithy_types.specs.views.DocumentView.{view as document_view};

    /// The document with these settings, and without a discriminator.
    pub fn new(document: Document, settings: S) -> Self
        ensures document { result.document ≡ document_view document }
        ensures discriminator { result.discriminator ≡ None }
        ensures settings { result.settings ≡ settings }
    {
        DiscriminatedDocument {
            document,
            name: None,
            settings,
        }
    }

    /// The same with this discriminator.
    pub fn with_discriminator(self, name: Text) -> Self
        ensures { result ≡ record self { discriminator = Some name } }
    {
        let DiscriminatedDocument {
            document,
            settings,
            ..
        } = self;
        DiscriminatedDocument {
            document,
            name: Some(name),
            settings,
        }
    }

    /// The document.
    pub fn document(&self) -> &Document
        ensures { document_view result.now ≡ self.now.document }
    {
        &self.document
    }

    /// The discriminator, where there is one.
    pub fn discriminator(&self) -> Option<&str>
        ensures { option_map (λ t. t.now) result ≡ self.now.discriminator }
    {
        match &self.name {
            Some(name) => Some(name.as_str()),
            None => None,
        }
    }

    /// The settings.
    pub fn settings(&self) -> &S
        ensures { result.now ≡ self.now.settings }
    {
        &self.settings
    }
}
