// Laws alone: what a true test says, and what a choice by a test keeps.
#![tactic(auto)]
